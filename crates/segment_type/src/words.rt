ghost use Rattle.std.specs.Prelude.{◌≡◌, IfOk, IfErr, MatchBool};
ghost use Rattle.erl_syntax.specs.Typing.{kind_of, is_of, word, Differ};
ghost use Rattle.erl_syntax.specs.declared.typing.SegFault.TheVariants.{TwoOfAKind};
ghost use Rattle.segment_type.specs.Words.{AllAre, SomeIsNot, IsOnly, AreWords};

use erl_syntax::{SegFault, Spec, SpecKind};

/// The words of a segment's type, one of each kind at most.
#[derive(Clone, Copy, Drop)]
pub struct Words {
    pub type_word: Option<Spec>,
    pub sign: Option<Spec>,
    pub endian: Option<Spec>,
    pub unit: Option<Spec>,
}

/// The kind of a word.
fn kind_of(spec: Spec) -> SpecKind
    ensures { result ≡ kind_of spec }
{
    match spec {
        Spec::Integer
        | Spec::Binary
        | Spec::Bitstring
        | Spec::Utf8
        | Spec::Utf16
        | Spec::Utf32
        | Spec::Float => SpecKind::Type,
        Spec::Signed | Spec::Unsigned => SpecKind::Sign,
        Spec::Big | Spec::Little | Spec::Native => SpecKind::Endian,
        Spec::Unit(_) => SpecKind::Unit,
    }
}

/// Whether the word is of the kind.
fn is_of(kind: SpecKind, spec: Spec) -> bool
    ensures { result ≡ is_of kind spec }
{
    kind_of(spec) == kind
}

/// The first word of the kind.
fn first_of(specs: &[Spec], kind: SpecKind) -> Option<Spec>
    ensures { result ≡ word kind specs.now }
{
    specs.iter().copied().find(|spec| is_of(kind, *spec))
}

/// Whether all words of the kind are this one.
fn all_are(specs: &[Spec], kind: SpecKind, first: Spec) -> bool
    ensures { MatchBool result (AllAre kind specs.now first) (SomeIsNot kind specs.now first) }
{
    specs
        .iter()
        .all(|spec| !is_of(kind, *spec) || *spec == first)
}

/// The word of the kind, or the fault that two words of the kind differ.
fn only(specs: &[Spec], kind: SpecKind) -> Result<Option<Spec>, SegFault>
    ensures value { IfOk result (λ w. w ≡ word kind specs.now) }
    ensures one { IfOk result (λ w. IsOnly kind specs.now) }
    ensures fault { IfErr result (λ e. e ≡ TwoOfAKind) }
    ensures differ { IfErr result (λ e. Differ specs.now) }
{
    match first_of(specs, kind) {
        None => Ok(None),
        Some(first) if all_are(specs, kind, first) => Ok(Some(first)),
        Some(_) => Err(SegFault::TwoOfAKind),
    }
}

/// The words of a segment's type, or the fault that two words of a kind differ.
pub(crate) fn words_of(specs: &[Spec]) -> Result<Words, SegFault>
    ensures words { IfOk result (λ w. AreWords specs.now w) }
    ensures fault { IfErr result (λ e. e ≡ TwoOfAKind) }
    ensures differ { IfErr result (λ e. Differ specs.now) }
{
    Ok(Words {
        type_word: only(specs, SpecKind::Type)?,
        sign: only(specs, SpecKind::Sign)?,
        endian: only(specs, SpecKind::Endian)?,
        unit: only(specs, SpecKind::Unit)?,
    })
}
