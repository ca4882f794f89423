ghost use Rattle.std.specs.Prelude.{◌≡◌, Bool, Result};
ghost use Rattle.erl_syntax.specs.Typing.{Types};
ghost use Rattle.erl_syntax.specs.declared.segment.Segment.{Segment};
ghost use Rattle.erl_syntax.specs.declared.typing.SideUse.{SideUse};
ghost use Rattle.erl_syntax.specs.declared.typing.Typed.{Typed};
ghost use Rattle.erl_syntax.specs.declared.typing.SegFault.{SegFault};

/// A segment has one type or one first fault where it stands.
pub fn one_type()
    ensures { (sg : Segment) (on : SideUse) (last : Bool) (a b : Result Typed SegFault) → Types sg on last a → Types sg on last b → a ≡ b }
{}
