//! The plain store.

ghost use Rattle.std.specs.Prelude.{◌≡◌, ◌+◌, ◌*◌, ◌≤◌, ◌++◌, List, Bool, All, length, take, IfOk};
ghost use Rattle.bits_value.specs.Bits.{all_bits};
ghost use Rattle.bits_value.specs.Number.{spell};
ghost use Rattle.bits_value.specs.declared.TheConstants.{MAX_BITS};
ghost use Rattle.bit_store.specs.Pieces.{piece_bits, pieces_bits, IsInside};
ghost use Rattle.bit_store.specs.Stores.{itself};

use crate::piece::{Piece, total_bits};
use crate::store::{Store, StoreFault};
use crate::window::Window;
use bits_value::{Bits, Endian, Frozen, MAX_BITS, Steps, copy_bits, put};
use std::alloc::{AllocError, Global};

/// Bitstrings that no call changes, each the bits of its own reference. A new one is copied whole, a part is shared.
#[derive(Drop)]
pub struct PlainStore {
    alloc: Global,
}

impl PlainStore {
    pub fn new(alloc: Global) -> PlainStore {
        PlainStore { alloc }
    }
}

impl Store<Window> for PlainStore {
    ghost shown = { λ store of. of };

    ghost has = { λ store of. length of ≤ MAX_BITS };

    ghost grows = { λ store of other. ⊥ };

    fn look<'a>(&'a self, of: &'a Window) -> Bits<'a> {
        of.bits()
    }

    fn part(&self, of: &Window, off: u32, bits: u32) -> Result<Window, AllocError> {
        of.part(off, bits)
    }

    fn fresh(&mut self, pieces: &[Piece<Window>], steps: &mut Steps) -> Result<Window, StoreFault> {
        match total_bits(pieces) {
            None => Err(StoreFault::TooLong),
            Some(total) => match made(self.alloc, Bits::of(b"", 0, 0), pieces, total) {
                Err(_) => Err(StoreFault::NoMemory),
                Ok(made) => {
                    steps.add(total);
                    Ok(made)
                }
            },
        }
    }

    fn append(
        &mut self,
        to: &Window,
        pieces: &[Piece<Window>],
        steps: &mut Steps,
    ) -> Result<Window, StoreFault> {
        match total_bits(pieces) {
            None => Err(StoreFault::TooLong),
            Some(total) => {
                if total > MAX_BITS - to.len() {
                    return Err(StoreFault::TooLong);
                }
                match made(self.alloc, to.bits(), pieces, to.len() + total) {
                    Err(_) => Err(StoreFault::NoMemory),
                    Ok(made) => {
                        steps.add(made.len());
                        Ok(made)
                    }
                }
            }
        }
    }

    fn still(&mut self, _of: &Window) {}

    ghost short = { λ store of h. h };
}

// The bits and then the pieces, which are `total` together, copied.
fn made(
    alloc: Global,
    first: Bits<'_>,
    pieces: &[Piece<Window>],
    total: u32,
) -> Result<Window, AllocError>
    requires inside { All (IsInside itself) pieces.now }
    requires size { total ≡ length first + length (pieces_bits itself pieces.now) }
    requires short { total ≤ MAX_BITS }
    ensures { IfOk result (λ made. made ≡ first.entry ++ pieces_bits itself pieces.now) }
{
    let mut bytes = blank(alloc, total)?;
    write_all(&mut bytes, first, pieces);
    Window::whole(alloc, Frozen::of(bytes, total), total)
}

// Bytes for so many bits.
fn blank(alloc: Global, bits: u32) -> Result<Vec<u8>, AllocError>
    requires { bits ≤ MAX_BITS }
    ensures { IfOk result (λ bytes. bits ≤ 8 * length bytes.items) }
{
    vec![in alloc; 0u8; (bits as usize).div_ceil(8)]
}

// Writes the bits and then the pieces.
fn write_all(target: &mut [u8], first: Bits<'_>, pieces: &[Piece<Window>])
    requires inside { All (IsInside itself) pieces.now }
    requires room { length first + length (pieces_bits itself pieces.now) ≤ 8 * length target.old }
    requires short { length first + length (pieces_bits itself pieces.now) ≤ MAX_BITS }
    ensures { take (length first.entry + length (pieces_bits itself pieces.now)) (all_bits target.new) ≡ first.entry ++ pieces_bits itself pieces.now }
{
    let len = first.len();
    copy_bits(target, 0, first);
    write_pieces(target, len, pieces);
}

// Writes the pieces from bit `at` on.
fn write_pieces(target: &mut [u8], at: u32, pieces: &[Piece<Window>])
    requires inside { All (IsInside itself) pieces.now }
    requires room { at + length (pieces_bits itself pieces.now) ≤ 8 * length target.old }
    requires short { at + length (pieces_bits itself pieces.now) ≤ MAX_BITS }
    ensures { take (at + length (pieces_bits itself pieces.now)) (all_bits target.new) ≡ take at (all_bits target.old) ++ pieces_bits itself pieces.now }
{
    let mut end = at;
    for piece in pieces {
        end = write_piece(target, end, piece);
    }
}

// Writes a piece at bit `at`, and returns where it ends.
fn write_piece(target: &mut [u8], at: u32, piece: &Piece<Window>) -> u32
    requires inside { IsInside itself piece.now }
    requires room { at + length (piece_bits itself piece.now) ≤ 8 * length target.old }
    requires short { at + length (piece_bits itself piece.now) ≤ MAX_BITS }
    ensures end { result ≡ at + length (piece_bits itself piece.now) }
    ensures bits { take result (all_bits target.new) ≡ take at (all_bits target.old) ++ piece_bits itself piece.now }
{
    match piece {
        Piece::Number {
            value,
            bits,
            endian,
        } => write_number(target, at, *value, *bits, *endian),
        Piece::Character(bytes) => write_bytes(target, at, bytes),
        Piece::Bytes(text) => write_bytes(target, at, text.bytes()),
        Piece::Part { of, off, bits } => {
            copy_bits(target, at, of.bits().part(*off, *bits));
            at + *bits
        }
    }
}

// Writes the value's lowest bits at bit `at`, and returns where they end.
fn write_number(target: &mut [u8], at: u32, value: i128, bits: u32, endian: Endian) -> u32
    requires room { at + bits ≤ 8 * length target.old }
    requires short { at + bits ≤ MAX_BITS }
    ensures end { result ≡ at + bits }
    ensures bits { take result (all_bits target.new) ≡ take at (all_bits target.old) ++ spell bits value endian }
{
    put(target, at, bits, value, endian);
    at + bits
}

// Writes the bytes at bit `at`, and returns where they end.
fn write_bytes(target: &mut [u8], at: u32, bytes: &[u8]) -> u32
    requires room { at + length (all_bits bytes.now) ≤ 8 * length target.old }
    requires short { at + length (all_bits bytes.now) ≤ MAX_BITS }
    ensures end { result ≡ at + length (all_bits bytes.now) }
    ensures bits { take result (all_bits target.new) ≡ take at (all_bits target.old) ++ all_bits bytes.now }
{
    let bits = 8 * bytes.len() as u32;
    copy_bits(target, at, Bits::of(bytes, 0, bits));
    at + bits
}
