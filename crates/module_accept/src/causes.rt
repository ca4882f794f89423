ghost use Rattle.std.specs.Prelude.{◌≡◌};
ghost use Rattle.module_accept.specs.Causes.{token_text, read_text, segment_text, check_text};

use clause_read::ReadCause;
use erl_syntax::{CheckCause, LexCause, SegFault};

/// The text of a fault of tokens.
pub fn token_text(why: LexCause) -> &'static str
    ensures { result.now ≡ token_text why }
{
    match why {
        LexCause::NotUtf8 => "not UTF-8",
        LexCause::UnexpectedCharacter => "unexpected character",
        LexCause::UnclosedQuote => "unclosed quote",
        LexCause::BadEscape => "bad escape",
        LexCause::BadNumber => "bad number",
        LexCause::Float => "float",
        LexCause::IntegerTooWide => "integer too wide",
        LexCause::AtomTooLong => "atom too long",
        LexCause::NoMemory => "out of memory",
    }
}

/// The text of a fault of reading.
pub fn read_text(why: ReadCause) -> &'static str
    ensures { result.now ≡ read_text why }
{
    match why {
        ReadCause::TextTooLong => "text too long",
        ReadCause::Token(why) => token_text(why),
        ReadCause::Syntax => "syntax",
        ReadCause::TooDeep => "too deep",
        ReadCause::UnknownAttribute => "unknown attribute",
        ReadCause::UnknownSegmentType => "unknown segment type",
        ReadCause::NoMemory => "out of memory",
    }
}

/// The text of a fault of a segment.
pub fn segment_text(why: SegFault) -> &'static str
    ensures { result.now ≡ segment_text why }
{
    match why {
        SegFault::TwoOfAKind => "two specs of a kind",
        SegFault::UnitRange => "unit out of range",
        SegFault::FloatType => "float segment",
        SegFault::SizeOnUtf => "size on utf",
        SegFault::UnitOnUtf => "unit on utf",
        SegFault::UnitWithoutSize => "unit without size",
        SegFault::StringType => "string as binary",
        SegFault::OpenNotLast => "open segment not last",
        SegFault::OpenInGenerator => "open segment in generator",
    }
}

/// The text of a fault of a module.
pub fn check_text(why: CheckCause) -> &'static str
    ensures { result.now ≡ check_text why }
{
    match why {
        CheckCause::Segment(fault) => segment_text(fault),
        CheckCause::ModuleAgain => "module again",
        CheckCause::HeadsDiffer => "heads differ",
        CheckCause::FunctionAgain => "function again",
        CheckCause::ExportMissing => "exported function missing",
        CheckCause::UndefinedFunction => "undefined function",
        CheckCause::CallInGuard => "call in guard",
        CheckCause::UnboundVariable => "unbound variable",
        CheckCause::UnsafeVariable => "unsafe variable",
        CheckCause::NoModule => "no module attribute",
        CheckCause::NoMain => "no main/0",
        CheckCause::NoMemory => "out of memory",
    }
}
