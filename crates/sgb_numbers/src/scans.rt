//! How many elements at an end of a part of a slice are equal to the one there.
//!
//! A number is compared with the one at the end, and not with its neighbour: equality is symmetric and transitive, so that
//! the two say the same.
ghost use Rattle.std.specs.Prelude.{◌≡◌, ◌+◌, ◌-◌, ◌<◌, ◌≤◌, false, length, slice_index_or};
ghost use Rattle.sgb_numbers.specs.Numbers.{AreLike, IsFirstLen, IsLastLen};

use crate::lanes::Lanes;
use crate::masks::Masks;
use crate::number_judge::NumberJudge;

// So many are compared one by one first: groups are often as short.
const ONE_BY_ONE: usize = 9;

/// How many elements from the place `low` on are equal to the one there, before the place `high`.
#[inline]
pub fn first_like<T: Lanes>(slice: &[T], low: usize, high: usize) -> usize
    requires nonempty { low < high }
    requires inside { high ≤ length slice.now }
    ensures { IsFirstLen T.eq slice.now low high result }
{
    let number = &slice[low];
    if high - low < ONE_BY_ONE + 16 {
        return like_from::<T, NumberJudge>(number, slice, low, 1, high - low);
    }
    let near = like_from::<T, NumberJudge>(number, slice, low, 1, ONE_BY_ONE);
    if near < ONE_BY_ONE {
        return near;
    }
    like_by_vectors::<T, NumberJudge>(number, slice, low + ONE_BY_ONE, high) - low
}

/// How many elements from the place `low` on are equal to the number, `most` at most, where the first `len` are.
#[inline]
fn like_from<T, M: Masks<T>>(number: &T, slice: &[T], low: usize, len: usize, most: usize) -> usize
    requires order { len ≤ most }
    requires inside { low + most ≤ length slice.now }
    ensures low { len ≤ result }
    ensures high { result ≤ most }
    ensures like { AreLike M.same number.now slice.now (low + len) (low + result) }
    ensures unlike { result < most → M.same (slice_index_or slice.now (low + result) number.now) number.now ≡ false }
{
    let mut all = len;
    while all < most && M::same(&slice[low + all], number) {
        all += 1;
    }
    all
}

/// The first place from `low` on whose element is not equal to the number, or `high`: by vectors, and one by one where less
/// than a vector is left.
#[inline]
pub fn like_by_vectors<T, M: Masks<T>>(number: &T, slice: &[T], low: usize, high: usize) -> usize
    requires order { low ≤ high }
    requires inside { high ≤ length slice.now }
    ensures low { low ≤ result }
    ensures high { result ≤ high }
    ensures like { AreLike M.same number.now slice.now low result }
    ensures unlike { result < high → M.same (slice_index_or slice.now result number.now) number.now ≡ false }
{
    let mut place = low;
    while 16 <= high - place {
        let unlike = M::unlike(number, slice, place);
        if unlike != 0 {
            return place + unlike.trailing_zeros() as usize;
        }
        place += 16;
    }
    place + like_from::<T, M>(number, slice, place, 0, high - place)
}

/// How many elements up to the last before the place `high` are equal to that one, from the place `low` on.
#[inline]
pub fn last_like<T: Lanes>(slice: &[T], low: usize, high: usize) -> usize
    requires nonempty { low < high }
    requires inside { high ≤ length slice.now }
    ensures { IsLastLen T.eq slice.now low high result }
{
    let number = &slice[high - 1];
    if high - low < ONE_BY_ONE + 16 {
        return like_upto::<T, NumberJudge>(number, slice, high, 1, high - low);
    }
    let near = like_upto::<T, NumberJudge>(number, slice, high, 1, ONE_BY_ONE);
    if near < ONE_BY_ONE {
        return near;
    }
    high - like_back_by_vectors::<T, NumberJudge>(number, slice, low, high - ONE_BY_ONE)
}

/// How many last elements before the place `high` are equal to the number, `most` at most, where the last `len` are.
#[inline]
fn like_upto<T, M: Masks<T>>(number: &T, slice: &[T], high: usize, len: usize, most: usize) -> usize
    requires order { len ≤ most }
    requires room { most ≤ high }
    requires inside { high ≤ length slice.now }
    ensures low { len ≤ result }
    ensures high { result ≤ most }
    ensures like { AreLike M.same number.now slice.now (high - result) (high - len) }
    ensures unlike { result < most → M.same (slice_index_or slice.now (high - result - 1) number.now) number.now ≡ false }
{
    let mut all = len;
    while all < most && M::same(&slice[high - all - 1], number) {
        all += 1;
    }
    all
}

/// The place behind the last element before `high` that is not equal to the number, or `low`: by vectors, and one by one
/// where less than a vector is left.
#[inline]
pub fn like_back_by_vectors<T, M: Masks<T>>(
    number: &T,
    slice: &[T],
    low: usize,
    high: usize,
) -> usize
    requires order { low ≤ high }
    requires inside { high ≤ length slice.now }
    ensures low { low ≤ result }
    ensures high { result ≤ high }
    ensures like { AreLike M.same number.now slice.now result high }
    ensures unlike { low < result → M.same (slice_index_or slice.now (result - 1) number.now) number.now ≡ false }
{
    let mut place = high;
    while 16 <= place - low {
        let unlike = M::unlike(number, slice, place - 16);
        if unlike != 0 {
            return place - 15 + unlike.ilog2() as usize;
        }
        place -= 16;
    }
    place - like_upto::<T, M>(number, slice, place, 0, place - low)
}
