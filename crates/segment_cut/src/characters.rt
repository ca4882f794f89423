//! The character at a place in bits.

ghost use Rattle.std.specs.Prelude.{◌≤◌, length, drop, MatchOption, None, ◌≡◌};
ghost use Rattle.bits_value.specs.declared.TheConstants.{MAX_BITS};
ghost use Rattle.term_value.specs.Characters.{character_of};
ghost use Rattle.segment_cut.specs.Cuts.{IsCharacterAt};

use bits_value::{Bits, Endian, UtfKind};
use utf_segments::decode;

/// A character that stands in bits.
#[derive(Debug, Copy, Clone, Drop)]
pub struct Character {
    pub number: u32,
    /// The bit behind its spelling.
    pub next: u32,
}

/// The character whose spelling begins at bit `at`.
pub fn character_at(utf: UtfKind, endian: Endian, source: Bits<'_>, at: u32) -> Option<Character>
    requires inside { at ≤ length source }
    requires short { length source ≤ MAX_BITS }
    ensures { MatchOption result (character_of utf endian (drop at source.entry) ≡ None) (λ found. IsCharacterAt utf endian source.entry at found) }
{
    let (number, bytes) = decode(utf, endian, source, at)?;
    Some(Character {
        number,
        next: at + 8 * u32::from(bytes),
    })
}
