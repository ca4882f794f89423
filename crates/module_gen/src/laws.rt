// A law of the generated text, the contract of a function that does nothing.
ghost use Rattle.module_gen.specs.Laws.{GeneratedIsShort};

/// The generated text has no more bytes than the longest text that is read.
pub fn generated_is_short()
    ensures { GeneratedIsShort }
{}
