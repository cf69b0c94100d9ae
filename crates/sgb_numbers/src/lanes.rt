//! The types of numbers that are compared by vectors.
ghost use Rattle.std.specs.Prelude.{◌≡◌, ◌+◌, ◌<◌, ◌≤◌, not, length, map};
ghost use Rattle.std.specs.Simd.Lanes.{mask_l, chunk};
ghost use Rattle.sgb_numbers.specs.Numbers.{boundaries};

use crate::signed::{Signed, read_all};
use std::simd::prelude::*;

/// A type of numbers that are compared by vectors: sixteen elements of a slice with one number at a time.
///
/// ```
/// let row = [7u8; 20];
/// u8::unlike(&7, &row, 0); // 0
/// u8::unlike(&8, &row, 0); // 0xffff
/// u8::cuts(&row, 0);       // 0
/// ```
pub trait Lanes: PartialEq {
    /// Which of sixteen elements from the place `at` on are not equal to the number: bit k is set for that at `at + k`.
    fn unlike(number: &Self, slice: &[Self], at: usize) -> u64
        requires { at + 16 ≤ length slice.now }
        ensures { result ≡ mask_l (map (λ y. not (Self.eq y number.now)) (chunk at 16 slice.now)) };

    /// Which of sixteen neighbouring pairs from the place `at` on differ: bit k is set for the elements at `at + k` and the next.
    fn cuts(slice: &[Self], at: usize) -> u64
        requires { at + 16 < length slice.now }
        ensures { result ≡ mask_l (chunk at 16 (boundaries Self.eq slice.now)) };
}

impl Lanes for u8 {
    #[inline]
    fn unlike(number: &u8, slice: &[u8], at: usize) -> u64 {
        u8x16::from_slice(&slice[at..])
            .simd_ne(u8x16::splat(*number))
            .to_bitmask()
    }

    #[inline(always)]
    fn cuts(slice: &[u8], at: usize) -> u64 {
        let first = u8x16::from_slice(&slice[at..]);
        let second = u8x16::from_slice(&slice[at + 1..]);
        first.simd_ne(second).to_bitmask()
    }
}

impl Lanes for u16 {
    #[inline]
    fn unlike(number: &u16, slice: &[u16], at: usize) -> u64 {
        u16x16::from_slice(&slice[at..])
            .simd_ne(u16x16::splat(*number))
            .to_bitmask()
    }

    #[inline(always)]
    fn cuts(slice: &[u16], at: usize) -> u64 {
        let first = u16x16::from_slice(&slice[at..]);
        let second = u16x16::from_slice(&slice[at + 1..]);
        first.simd_ne(second).to_bitmask()
    }
}

impl Lanes for u32 {
    #[inline]
    fn unlike(number: &u32, slice: &[u32], at: usize) -> u64 {
        u32x16::from_slice(&slice[at..])
            .simd_ne(u32x16::splat(*number))
            .to_bitmask()
    }

    #[inline(always)]
    fn cuts(slice: &[u32], at: usize) -> u64 {
        let first = u32x16::from_slice(&slice[at..]);
        let second = u32x16::from_slice(&slice[at + 1..]);
        first.simd_ne(second).to_bitmask()
    }
}

impl Lanes for u64 {
    #[inline]
    fn unlike(number: &u64, slice: &[u64], at: usize) -> u64 {
        u64x16::from_slice(&slice[at..])
            .simd_ne(u64x16::splat(*number))
            .to_bitmask()
    }

    #[inline(always)]
    fn cuts(slice: &[u64], at: usize) -> u64 {
        let first = u64x16::from_slice(&slice[at..]);
        let second = u64x16::from_slice(&slice[at + 1..]);
        first.simd_ne(second).to_bitmask()
    }
}

impl Lanes for usize {
    #[inline]
    fn unlike(number: &usize, slice: &[usize], at: usize) -> u64 {
        usizex16::from_slice(&slice[at..])
            .simd_ne(usizex16::splat(*number))
            .to_bitmask()
    }

    #[inline(always)]
    fn cuts(slice: &[usize], at: usize) -> u64 {
        let first = usizex16::from_slice(&slice[at..]);
        let second = usizex16::from_slice(&slice[at + 1..]);
        first.simd_ne(second).to_bitmask()
    }
}

impl Lanes for f32 {
    #[inline]
    fn unlike(number: &f32, slice: &[f32], at: usize) -> u64 {
        f32x16::from_slice(&slice[at..])
            .simd_ne(f32x16::splat(*number))
            .to_bitmask()
    }

    #[inline(always)]
    fn cuts(slice: &[f32], at: usize) -> u64 {
        let first = f32x16::from_slice(&slice[at..]);
        let second = f32x16::from_slice(&slice[at + 1..]);
        first.simd_ne(second).to_bitmask()
    }
}

impl Lanes for f64 {
    #[inline]
    fn unlike(number: &f64, slice: &[f64], at: usize) -> u64 {
        f64x16::from_slice(&slice[at..])
            .simd_ne(f64x16::splat(*number))
            .to_bitmask()
    }

    #[inline(always)]
    fn cuts(slice: &[f64], at: usize) -> u64 {
        let first = f64x16::from_slice(&slice[at..]);
        let second = f64x16::from_slice(&slice[at + 1..]);
        first.simd_ne(second).to_bitmask()
    }
}

impl Lanes for i8 {
    #[inline]
    fn unlike(number: &i8, slice: &[i8], at: usize) -> u64 {
        number.read();
        read_all(slice, at, at + 16);
        i8x16::from_slice(&slice[at..])
            .simd_ne(i8x16::splat(*number))
            .to_bitmask()
    }

    #[inline(always)]
    fn cuts(slice: &[i8], at: usize) -> u64 {
        read_all(slice, at, at + 17);
        let first = i8x16::from_slice(&slice[at..]);
        let second = i8x16::from_slice(&slice[at + 1..]);
        first.simd_ne(second).to_bitmask()
    }
}

impl Lanes for i16 {
    #[inline]
    fn unlike(number: &i16, slice: &[i16], at: usize) -> u64 {
        number.read();
        read_all(slice, at, at + 16);
        i16x16::from_slice(&slice[at..])
            .simd_ne(i16x16::splat(*number))
            .to_bitmask()
    }

    #[inline(always)]
    fn cuts(slice: &[i16], at: usize) -> u64 {
        read_all(slice, at, at + 17);
        let first = i16x16::from_slice(&slice[at..]);
        let second = i16x16::from_slice(&slice[at + 1..]);
        first.simd_ne(second).to_bitmask()
    }
}

impl Lanes for i32 {
    #[inline]
    fn unlike(number: &i32, slice: &[i32], at: usize) -> u64 {
        number.read();
        read_all(slice, at, at + 16);
        i32x16::from_slice(&slice[at..])
            .simd_ne(i32x16::splat(*number))
            .to_bitmask()
    }

    #[inline(always)]
    fn cuts(slice: &[i32], at: usize) -> u64 {
        read_all(slice, at, at + 17);
        let first = i32x16::from_slice(&slice[at..]);
        let second = i32x16::from_slice(&slice[at + 1..]);
        first.simd_ne(second).to_bitmask()
    }
}

impl Lanes for i64 {
    #[inline]
    fn unlike(number: &i64, slice: &[i64], at: usize) -> u64 {
        number.read();
        read_all(slice, at, at + 16);
        i64x16::from_slice(&slice[at..])
            .simd_ne(i64x16::splat(*number))
            .to_bitmask()
    }

    #[inline(always)]
    fn cuts(slice: &[i64], at: usize) -> u64 {
        read_all(slice, at, at + 17);
        let first = i64x16::from_slice(&slice[at..]);
        let second = i64x16::from_slice(&slice[at + 1..]);
        first.simd_ne(second).to_bitmask()
    }
}

impl Lanes for isize {
    #[inline]
    fn unlike(number: &isize, slice: &[isize], at: usize) -> u64 {
        number.read();
        read_all(slice, at, at + 16);
        isizex16::from_slice(&slice[at..])
            .simd_ne(isizex16::splat(*number))
            .to_bitmask()
    }

    #[inline(always)]
    fn cuts(slice: &[isize], at: usize) -> u64 {
        read_all(slice, at, at + 17);
        let first = isizex16::from_slice(&slice[at..]);
        let second = isizex16::from_slice(&slice[at + 1..]);
        first.simd_ne(second).to_bitmask()
    }
}
