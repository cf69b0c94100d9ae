//! Masks of boundaries: filled by vectors, and read from their lowest bit on.
ghost use Rattle.std.specs.Prelude.{◌≡◌, ◌+◌, ◌-◌, ◌<◌, ◌≤◌, length, true, bit_and, if◌then◌else◌};
ghost use Rattle.sgb_numbers.specs.Numbers.{differs, AreSame, IsFirstEnd, IsLastStart};
ghost use Rattle.slice_group_simd.specs.Masks.{FrontMask, BackMask};

use crate::blocks::{block, block_back, cuts_back};
use sgb_numbers::masks::Masks;
use sgb_numbers::scans::{like_back_by_vectors, like_by_vectors};

// So many pairs are compared with each other first. In a group that goes on, numbers are compared with one of them: that loads a
// vector where pairs load two.
const SCAN_AFTER: usize = 128;

/// Where the first group from the place `low` on ends, where the mask has a boundary.
#[inline(always)]
pub(crate) fn first_end<T, M: Masks<T>>(slice: &[T], low: usize, front: u64, known: usize) -> usize
    requires some { 0 < front }
    requires mask { FrontMask M.same slice.now low front known }
    ensures nonempty { low < result }
    ensures within { result ≤ known }
    ensures same { AreSame M.same slice.now low (result - 1) }
    ensures differ { differs M.same slice.now (result - 1) ≡ true }
    ensures mask { FrontMask M.same slice.now result (bit_and front (front - 1)) known }
{
    known - (63 - front.trailing_zeros() as usize)
}

/// Where the last group before the place `high` begins, where the mask has a boundary.
#[inline(always)]
pub(crate) fn last_start<T, M: Masks<T>>(slice: &[T], high: usize, back: u64, base: usize) -> usize
    requires some { 0 < back }
    requires inside { high ≤ length slice.now }
    requires mask { BackMask M.same slice.now high back base }
    ensures nonempty { result < high }
    ensures within { base < result }
    ensures same { AreSame M.same slice.now result (high - 1) }
    ensures differ { differs M.same slice.now (result - 1) ≡ true }
    ensures mask { BackMask M.same slice.now result (bit_and back (back - 1)) base }
{
    base + (64 - back.trailing_zeros() as usize)
}

/// Whether the elements at the place `at` and the next differ.
#[inline(always)]
fn cut<T, M: Masks<T>>(slice: &[T], at: usize) -> u64
    requires { at + 1 < length slice.now }
    ensures { result ≡ (if differs M.same slice.now at then 1 else 0) }
{
    if M::same(&slice[at], &slice[at + 1]) {
        0
    } else {
        1
    }
}

/// The mask of sixteen pairs more, those from the place `at` on. Contracts alone read where the known part begins.
#[inline(always)]
fn grown<T, M: Masks<T>>(slice: &[T], _low: usize, at: usize, mask: u64) -> u64
    requires after { _low ≤ at }
    requires fits { at + 16 ≤ _low + 64 }
    requires inside { at + 16 < length slice.now }
    requires mask { FrontMask M.same slice.now _low mask at }
    ensures { FrontMask M.same slice.now _low result (at + 16) }
{
    (mask >> 16) | (M::cuts(slice, at) << 48)
}

/// The mask of sixteen pairs more, those from the place `at` on, where the others begin. Contracts alone read where the known
/// part ends.
#[inline(always)]
fn grown_back<T, M: Masks<T>>(slice: &[T], _high: usize, at: usize, mask: u64) -> u64
    requires before { at + 16 < _high }
    requires fits { _high ≤ at + 65 }
    requires inside { _high ≤ length slice.now }
    requires mask { BackMask M.same slice.now _high mask (at + 16) }
    ensures { BackMask M.same slice.now _high result at }
{
    (mask >> 16) | (cuts_back::<T, M>(slice, at) << 48)
}

/// A mask of the pairs from the place `from` on, up to the end of the first block with a boundary, and where that is.
#[inline(always)]
fn mask_from<T, M: Masks<T>>(slice: &[T], from: usize, high: usize) -> (u64, usize)
    requires order { from < high }
    requires inside { high ≤ length slice.now }
    ensures mask { FrontMask M.same slice.now from result.0 result.1 }
    ensures within { result.1 < high }
    ensures all { result.0 ≡ 0 → result.1 + 1 ≡ high }
{
    // A call on a new iterator alone should not take long.
    if from == 0 && 17 <= high {
        let mask = grown::<T, M>(slice, 0, 0, 0);
        if mask != 0 {
            return (mask, 16);
        }
    }
    let mut at = from;
    while 65 <= high - at {
        if SCAN_AFTER <= at - from {
            return scan_front::<T, M>(slice, at, high);
        }
        let mask = block::<T, M>(slice, at);
        at += 64;
        if mask != 0 {
            return (mask, at);
        }
    }
    rest_mask_from::<T, M>(slice, at, high)
}

/// A mask of the pairs from the place `from` on, up to the first that differs.
#[inline]
fn scan_front<T, M: Masks<T>>(slice: &[T], from: usize, high: usize) -> (u64, usize)
    requires order { from < high }
    requires inside { high ≤ length slice.now }
    ensures mask { FrontMask M.same slice.now from result.0 result.1 }
    ensures within { result.1 < high }
    ensures all { result.0 ≡ 0 → result.1 + 1 ≡ high }
{
    let end = like_by_vectors::<T, M>(&slice[from], slice, from + 1, high);
    if end < high {
        (1 << 63, end)
    } else {
        (0, high - 1)
    }
}

/// A mask of the pairs from the place `from` on, where 63 are left at most.
#[inline(always)]
fn rest_mask_from<T, M: Masks<T>>(slice: &[T], from: usize, high: usize) -> (u64, usize)
    requires order { from < high }
    requires few { high ≤ from + 64 }
    requires inside { high ≤ length slice.now }
    ensures mask { FrontMask M.same slice.now from result.0 result.1 }
    ensures all { result.1 + 1 ≡ high }
{
    let mut at = from;
    let mut mask = 0u64;
    while 17 <= high - at {
        mask = grown::<T, M>(slice, from, at, mask);
        at += 16;
    }
    while 2 <= high - at {
        mask = (mask >> 1) | (cut::<T, M>(slice, at) << 63);
        at += 1;
    }
    (mask, at)
}

/// A mask of the pairs before the place `upto`, from `low` on, down to the beginning of the first block with a boundary.
#[inline(always)]
fn mask_before<T, M: Masks<T>>(slice: &[T], low: usize, upto: usize) -> (u64, usize)
    requires order { low ≤ upto }
    requires inside { upto < length slice.now }
    ensures mask { BackMask M.same slice.now (upto + 1) result.0 result.1 }
    ensures within { low ≤ result.1 }
    ensures all { result.0 ≡ 0 → result.1 ≡ low }
{
    // A call on a new iterator alone should not take long.
    if upto + 1 == slice.len() && 16 <= upto - low {
        let mask = grown_back::<T, M>(slice, upto + 1, upto - 16, 0);
        if mask != 0 {
            return (mask, upto - 16);
        }
    }
    let mut at = upto;
    while 64 <= at - low {
        if SCAN_AFTER <= upto - at {
            return scan_back::<T, M>(slice, low, at);
        }
        at -= 64;
        let mask = block_back::<T, M>(slice, at);
        if mask != 0 {
            return (mask, at);
        }
    }
    rest_mask_before::<T, M>(slice, low, at)
}

/// A mask of the pairs before the place `upto`, down to the first that differs, or to `low`.
#[inline]
fn scan_back<T, M: Masks<T>>(slice: &[T], low: usize, upto: usize) -> (u64, usize)
    requires order { low ≤ upto }
    requires inside { upto < length slice.now }
    ensures mask { BackMask M.same slice.now (upto + 1) result.0 result.1 }
    ensures within { low ≤ result.1 }
    ensures all { result.0 ≡ 0 → result.1 ≡ low }
{
    let start = like_back_by_vectors::<T, M>(&slice[upto], slice, low, upto);
    if low < start {
        (1 << 63, start - 1)
    } else {
        (0, low)
    }
}

/// A mask of the pairs before the place `upto`, from `low` on, where 63 are left at most.
#[inline(always)]
fn rest_mask_before<T, M: Masks<T>>(slice: &[T], low: usize, upto: usize) -> (u64, usize)
    requires order { low ≤ upto }
    requires few { upto < low + 64 }
    requires inside { upto < length slice.now }
    ensures mask { BackMask M.same slice.now (upto + 1) result.0 result.1 }
    ensures all { result.1 ≡ low }
{
    let mut at = upto;
    let mut mask = 0u64;
    while 16 <= at - low {
        at -= 16;
        mask = grown_back::<T, M>(slice, upto + 1, at, mask);
    }
    while low < at {
        at -= 1;
        mask = (mask >> 1) | (cut::<T, M>(slice, at) << 63);
    }
    (mask, at)
}

/// Where the first group ends, and the mask of what is known then, and up to where that is: looks at more pairs where the mask has no
/// boundary.
#[cold]
#[inline(never)]
pub(crate) fn far_front<T, M: Masks<T>>(
    slice: &[T],
    low: usize,
    high: usize,
    front: u64,
    known: usize,
) -> (u64, usize, usize)
    requires order { low < high }
    requires inside { high ≤ length slice.now }
    requires mask { FrontMask M.same slice.now low front known }
    ensures end { IsFirstEnd M.same slice.now low high result.2 }
    ensures mask { FrontMask M.same slice.now result.2 result.0 result.1 }
{
    if front == 0 {
        return more_front::<T, M>(slice, low, high, known);
    }
    let end = first_end::<T, M>(slice, low, front, known);
    if end < high {
        (front & (front - 1), known, end)
    } else {
        (0, 0, high)
    }
}

#[inline(always)]
fn more_front<T, M: Masks<T>>(
    slice: &[T],
    low: usize,
    high: usize,
    known: usize,
) -> (u64, usize, usize)
    requires order { low < high }
    requires inside { high ≤ length slice.now }
    requires mask { FrontMask M.same slice.now low 0 known }
    ensures end { IsFirstEnd M.same slice.now low high result.2 }
    ensures mask { FrontMask M.same slice.now result.2 result.0 result.1 }
{
    let from = low.max(known).min(high - 1);
    let (front, filled) = mask_from::<T, M>(slice, from, high);
    if front == 0 {
        return (0, 0, high);
    }
    let end = first_end::<T, M>(slice, low, front, filled);
    (front & (front - 1), filled, end)
}

/// Where the last group begins, and the mask of what is known then, and from where on that is: looks at more pairs where the mask has
/// no boundary.
#[cold]
#[inline(never)]
pub(crate) fn far_back<T, M: Masks<T>>(
    slice: &[T],
    low: usize,
    high: usize,
    back: u64,
    base: usize,
) -> (u64, usize, usize)
    requires order { low < high }
    requires inside { high ≤ length slice.now }
    requires mask { BackMask M.same slice.now high back base }
    ensures start { IsLastStart M.same slice.now low high result.2 }
    ensures mask { BackMask M.same slice.now result.2 result.0 result.1 }
{
    if back == 0 {
        return more_back::<T, M>(slice, low, high, base);
    }
    let start = last_start::<T, M>(slice, high, back, base);
    if low < start {
        (back & (back - 1), base, start)
    } else {
        (0, low, low)
    }
}

#[inline(always)]
fn more_back<T, M: Masks<T>>(
    slice: &[T],
    low: usize,
    high: usize,
    base: usize,
) -> (u64, usize, usize)
    requires order { low < high }
    requires inside { high ≤ length slice.now }
    requires mask { BackMask M.same slice.now high 0 base }
    ensures start { IsLastStart M.same slice.now low high result.2 }
    ensures mask { BackMask M.same slice.now result.2 result.0 result.1 }
{
    let upto = base.min(high - 1).max(low);
    let (back, filled) = mask_before::<T, M>(slice, low, upto);
    if back == 0 {
        return (0, low, low);
    }
    let start = last_start::<T, M>(slice, high, back, filled);
    (back & (back - 1), filled, start)
}
