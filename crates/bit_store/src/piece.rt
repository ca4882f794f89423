ghost use Rattle.std.specs.Prelude.{◌≡◌, ◌+◌, ◌≤◌, List, Bool, All, length, IfSome};
ghost use Rattle.bits_value.specs.Bits.{all_bits};
ghost use Rattle.bits_value.specs.declared.TheConstants.{MAX_BITS};
ghost use Rattle.bit_store.specs.Pieces.{piece_bits, pieces_bits, IsInside, bits_within};

use arrayvec::ArrayVec;
use bits_value::{Endian, MAX_BITS};
use erl_syntax::Text;

/// What is written into a new bitstring.
#[derive(Drop)]
pub enum Piece<R> {
    /// The `bits` lowest bits of the value in two's complement, its bytes in this order.
    Number {
        value: i128,
        bits: u32,
        endian: Endian,
    },
    /// The bytes of a character.
    Character(ArrayVec<u8, 4>),
    Bytes(Text),
    /// `bits` bits of the reference from bit `off` on.
    Part {
        of: R,
        off: u32,
        bits: u32,
    },
}

/// The number of bits of the pieces together; None exactly where it is more than a bitstring may have.
pub fn total_bits<R>(pieces: &[Piece<R>]) -> Option<u32>
    ensures short { IfSome result (λ total. total ≤ MAX_BITS) }
    ensures is { (shown : R → List Bool) → All (IsInside shown) pieces.now → result ≡ bits_within (length (pieces_bits shown pieces.now)) }
{
    let mut total = 0u32;
    for piece in pieces {
        total = with_piece(total, piece)?;
    }
    Some(total)
}

// The bits so far and those of the piece.
fn with_piece<R>(total: u32, piece: &Piece<R>) -> Option<u32>
    requires { total ≤ MAX_BITS }
    ensures short { IfSome result (λ total. total ≤ MAX_BITS) }
    ensures is { (shown : R → List Bool) → IsInside shown piece.now → result ≡ bits_within (total + length (piece_bits shown piece.now)) }
{
    match piece {
        Piece::Number { bits, .. } => with_bits(total, *bits),
        Piece::Character(bytes) => with_bytes(total, bytes),
        Piece::Bytes(text) => with_bytes(total, text.bytes()),
        Piece::Part { bits, .. } => with_bits(total, *bits),
    }
}

fn with_bits(total: u32, bits: u32) -> Option<u32>
    requires { total ≤ MAX_BITS }
    ensures short { IfSome result (λ total. total ≤ MAX_BITS) }
    ensures is { result ≡ bits_within (total + bits) }
{
    if bits > MAX_BITS - total {
        None
    } else {
        Some(total + bits)
    }
}

fn with_bytes(total: u32, bytes: &[u8]) -> Option<u32>
    requires { total ≤ MAX_BITS }
    ensures short { IfSome result (λ total. total ≤ MAX_BITS) }
    ensures is { result ≡ bits_within (total + length (all_bits bytes.now)) }
{
    if bytes.len() > MAX_BITS as usize / 8 {
        None
    } else {
        with_bits(total, 8 * bytes.len() as u32)
    }
}
