//! Laws of characters and their spellings.

ghost use Rattle.std.specs.Prelude.{◌≡◌, ◌*◌, ◌++◌, ℕ, List, Bool, IsTrue, length, drop};
ghost use Rattle.bits_value.specs.Bits.{all_bits};
ghost use Rattle.bits_value.specs.Utf.{is_character, utf_bytes, Begins};

use bits_value::{Endian, UtfKind};

/// A character's spelling, whatever bits follow, begins with this character's spelling, and with no other character's.
pub fn character_reads_back(kind: UtfKind, endian: Endian, character: u32)
    requires { IsTrue (is_character character) }
    ensures first { (rest : List Bool) → Begins (all_bits (utf_bytes kind endian character)) (all_bits (utf_bytes kind endian character) ++ rest) }
    ensures alone { (rest : List Bool) (other : ℕ) → IsTrue (is_character other) → Begins (all_bits (utf_bytes kind endian other)) (all_bits (utf_bytes kind endian character) ++ rest) → other ≡ character }
    ensures rest { (rest : List Bool) → drop (8 * length (utf_bytes kind endian character)) (all_bits (utf_bytes kind endian character) ++ rest) ≡ rest }
{}

/// No two characters have one spelling.
pub fn one_character(kind: UtfKind, endian: Endian, first: u32, second: u32)
    requires first_is { IsTrue (is_character first) }
    requires second_is { IsTrue (is_character second) }
    ensures { utf_bytes kind endian first ≡ utf_bytes kind endian second → first ≡ second }
{}
