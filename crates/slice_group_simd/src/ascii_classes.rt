//! Letters, digits and white space of ASCII, and all other bytes.
ghost use Rattle.std.specs.Prelude.{◌≡◌, map};
ghost use Rattle.slice_group_simd.specs.AsciiBytes.{ascii_class, code};

use crate::byte_classes::ByteClasses;
use std::simd::prelude::*;

/// A class of bytes. Letters, digits and white space are those of ASCII, and all other bytes are `Other`.
#[derive(Clone, Copy, Debug, PartialEq, Eq, PartialOrd, Ord, Hash)]
pub enum AsciiClass {
    Letter,
    Digit,
    Space,
    Other,
}

use AsciiClass::{Digit as D, Letter as L, Other as O, Space as S};

// The class of each byte, in rows of 32.
static CLASSES: [AsciiClass; 256] = [
    O, O, O, O, O, O, O, O, O, S, S, O, S, S, O, O, O, O, O, O, O, O, O, O, O, O, O, O, O, O, O, O,
    S, O, O, O, O, O, O, O, O, O, O, O, O, O, O, O, D, D, D, D, D, D, D, D, D, D, O, O, O, O, O, O,
    O, L, L, L, L, L, L, L, L, L, L, L, L, L, L, L, L, L, L, L, L, L, L, L, L, L, L, O, O, O, O, O,
    O, L, L, L, L, L, L, L, L, L, L, L, L, L, L, L, L, L, L, L, L, L, L, L, L, L, L, O, O, O, O, O,
    O, O, O, O, O, O, O, O, O, O, O, O, O, O, O, O, O, O, O, O, O, O, O, O, O, O, O, O, O, O, O, O,
    O, O, O, O, O, O, O, O, O, O, O, O, O, O, O, O, O, O, O, O, O, O, O, O, O, O, O, O, O, O, O, O,
    O, O, O, O, O, O, O, O, O, O, O, O, O, O, O, O, O, O, O, O, O, O, O, O, O, O, O, O, O, O, O, O,
    O, O, O, O, O, O, O, O, O, O, O, O, O, O, O, O, O, O, O, O, O, O, O, O, O, O, O, O, O, O, O, O,
];

/// The classes `AsciiClass`: letters, digits, white space as `u8::is_ascii_whitespace`, and all else.
pub struct AsciiClasses {}

impl ByteClasses for AsciiClasses {
    type Class = AsciiClass;

    ghost class_of = { ascii_class };

    #[inline]
    fn class(byte: u8) -> AsciiClass {
        CLASSES[byte as usize]
    }

    #[inline]
    fn unlike(byte: u8, slice: &[u8], at: usize) -> u64 {
        let bytes = codes(u8x16::from_slice(&slice[at..]));
        bytes.simd_ne(codes(u8x16::splat(byte))).to_bitmask()
    }

    #[inline(always)]
    fn cuts(slice: &[u8], at: usize) -> u64 {
        let first = codes(u8x16::from_slice(&slice[at..]));
        let second = codes(u8x16::from_slice(&slice[at + 1..]));
        first.simd_ne(second).to_bitmask()
    }
}

// A byte's upper four bits choose a row, and its lower four a column. `ROWS` has a bit for each row with a class, and
// `COLUMNS` the bits of the rows that have one in that column. The bit that the two share, if any, chooses the code.
const ROWS: [u8; 16] = [4, 0, 8, 128, 1, 2, 1, 2, 0, 0, 0, 0, 0, 0, 0, 0];

const COLUMNS: [u8; 16] = [
    138, 131, 131, 131, 131, 131, 131, 131, 131, 135, 7, 1, 5, 5, 1, 1,
];

const CODES: [u8; 16] = [3, 1, 1, 3, 2, 3, 3, 3, 2, 3, 3, 3, 3, 3, 3, 3];

// The code of each byte's class. A place of 128 or more is no place of a table, and gives 0.
#[inline(always)]
fn codes(bytes: u8x16) -> u8x16
    ensures { result ≡ map (λ b. code (ascii_class b)) bytes }
{
    let row = u8x16::from_array(ROWS).swizzle_dyn(bytes >> 4);
    let column = u8x16::from_array(COLUMNS).swizzle_dyn(bytes & u8x16::splat(15));
    u8x16::from_array(CODES).swizzle_dyn(row & column)
}
