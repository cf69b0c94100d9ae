//! The library's walks and searches as functions of C, which the program in `bench/` times.
//!
//! A walk gives the lengths of its groups in one number, in order, so that no call can be left out. The keys are the elements
//! without their lowest bit.
#![tactic(auto)]

use slice_group_by::{
    BinaryGroup, BinaryGroupBy, BinaryGroupByKey, BinaryGroupByKeyMut, BinaryGroupByMut,
    BinaryGroupMut, ExponentialGroup, ExponentialGroupBy, ExponentialGroupByKey,
    ExponentialGroupByKeyMut, ExponentialGroupByMut, ExponentialGroupMut, LinearGroup,
    LinearGroupBy, LinearGroupByKey, LinearGroupByKeyMut, LinearGroupByMut, LinearGroupMut,
    MergeJoin, exponential_equal_places, exponential_partition_point, exponential_search,
};
use slice_group_simd::{AsciiClasses, LinearClassGroup, LinearNumberGroup, count_classes};
use slice_merge_join::MergeJoinBy;

macro_rules! lengths {
    ($groups:expr) => {{
        let mut sum = 0usize;
        for group in $groups {
            sum = sum.wrapping_mul(31).wrapping_add(group.len());
        }
        sum
    }};
}

macro_rules! lengths_from_both_ends {
    ($groups:expr, $most:expr) => {{
        let mut groups = $groups;
        let mut sum = 0usize;
        for _ in 0..$most {
            let Some(first) = groups.next() else {
                break;
            };
            sum = sum.wrapping_mul(31).wrapping_add(first.len());
            let Some(last) = groups.next_back() else {
                break;
            };
            sum = sum.wrapping_mul(31).wrapping_add(last.len());
        }
        sum
    }};
}

macro_rules! questions {
    ($groups:ident, $xs:expr) => {{
        let mut questions = 0usize;
        for _ in $groups::new($xs, |a, b| {
            questions = questions.wrapping_add(1);
            a == b
        }) {}
        questions
    }};
}

mod texts;

#[inline]
fn equal(a: &u32, b: &u32) -> bool {
    a == b
}

#[inline]
fn key(x: &u32) -> u32 {
    *x >> 1
}

#[inline]
fn itself(x: &u32) -> u32 {
    *x
}

#[unsafe(no_mangle)]
pub extern "C" fn linear_front(xs: &[u32]) -> usize {
    lengths!(LinearGroup::new(xs))
}

#[unsafe(no_mangle)]
pub extern "C" fn linear_mut_front(xs: &mut [u32]) -> usize {
    lengths!(LinearGroupMut::new(xs))
}

#[unsafe(no_mangle)]
pub extern "C" fn linear_back(xs: &[u32]) -> usize {
    lengths!(LinearGroup::new(xs).rev())
}

#[unsafe(no_mangle)]
pub extern "C" fn linear_mut_back(xs: &mut [u32]) -> usize {
    lengths!(LinearGroupMut::new(xs).rev())
}

#[unsafe(no_mangle)]
pub extern "C" fn number_u8_front(xs: &[u8]) -> usize {
    lengths!(LinearNumberGroup::new(xs))
}

#[unsafe(no_mangle)]
pub extern "C" fn number_u8_back(xs: &[u8]) -> usize {
    lengths!(LinearNumberGroup::new(xs).rev())
}

#[unsafe(no_mangle)]
pub extern "C" fn number_u32_front(xs: &[u32]) -> usize {
    lengths!(LinearNumberGroup::new(xs))
}

#[unsafe(no_mangle)]
pub extern "C" fn number_u32_back(xs: &[u32]) -> usize {
    lengths!(LinearNumberGroup::new(xs).rev())
}

#[unsafe(no_mangle)]
pub extern "C" fn number_u64_front(xs: &[u64]) -> usize {
    lengths!(LinearNumberGroup::new(xs))
}

#[unsafe(no_mangle)]
pub extern "C" fn number_u64_back(xs: &[u64]) -> usize {
    lengths!(LinearNumberGroup::new(xs).rev())
}

#[unsafe(no_mangle)]
pub extern "C" fn number_f64_front(xs: &[f64]) -> usize {
    lengths!(LinearNumberGroup::new(xs))
}

#[unsafe(no_mangle)]
pub extern "C" fn number_f64_back(xs: &[f64]) -> usize {
    lengths!(LinearNumberGroup::new(xs).rev())
}

#[unsafe(no_mangle)]
pub extern "C" fn class_front(bytes: &[u8]) -> usize {
    lengths!(LinearClassGroup::<AsciiClasses>::new(bytes))
}

#[unsafe(no_mangle)]
pub extern "C" fn class_back(bytes: &[u8]) -> usize {
    lengths!(LinearClassGroup::<AsciiClasses>::new(bytes).rev())
}

#[unsafe(no_mangle)]
pub extern "C" fn class_counts(bytes: &[u8]) -> usize {
    let counts = count_classes(None, bytes);
    [counts.letters, counts.digits, counts.spaces, counts.others]
        .iter()
        .fold(
            0usize,
            |sum, count| sum.wrapping_mul(31).wrapping_add(*count),
        )
}

#[unsafe(no_mangle)]
pub extern "C" fn linear_by_front(xs: &[u32]) -> usize {
    lengths!(LinearGroupBy::new(xs, equal))
}

#[unsafe(no_mangle)]
pub extern "C" fn linear_by_mut_front(xs: &mut [u32]) -> usize {
    lengths!(LinearGroupByMut::new(xs, equal))
}

#[unsafe(no_mangle)]
pub extern "C" fn linear_by_back(xs: &[u32]) -> usize {
    lengths!(LinearGroupBy::new(xs, equal).rev())
}

#[unsafe(no_mangle)]
pub extern "C" fn linear_by_mut_back(xs: &mut [u32]) -> usize {
    lengths!(LinearGroupByMut::new(xs, equal).rev())
}

#[unsafe(no_mangle)]
pub extern "C" fn linear_by_key_front(xs: &[u32]) -> usize {
    lengths!(LinearGroupByKey::new(xs, key))
}

#[unsafe(no_mangle)]
pub extern "C" fn linear_by_key_mut_front(xs: &mut [u32]) -> usize {
    lengths!(LinearGroupByKeyMut::new(xs, key))
}

#[unsafe(no_mangle)]
pub extern "C" fn linear_by_key_back(xs: &[u32]) -> usize {
    lengths!(LinearGroupByKey::new(xs, key).rev())
}

#[unsafe(no_mangle)]
pub extern "C" fn linear_by_key_mut_back(xs: &mut [u32]) -> usize {
    lengths!(LinearGroupByKeyMut::new(xs, key).rev())
}

#[unsafe(no_mangle)]
pub extern "C" fn binary_front(xs: &[u32]) -> usize {
    lengths!(BinaryGroup::new(xs))
}

#[unsafe(no_mangle)]
pub extern "C" fn binary_mut_front(xs: &mut [u32]) -> usize {
    lengths!(BinaryGroupMut::new(xs))
}

#[unsafe(no_mangle)]
pub extern "C" fn binary_back(xs: &[u32]) -> usize {
    lengths!(BinaryGroup::new(xs).rev())
}

#[unsafe(no_mangle)]
pub extern "C" fn binary_mut_back(xs: &mut [u32]) -> usize {
    lengths!(BinaryGroupMut::new(xs).rev())
}

#[unsafe(no_mangle)]
pub extern "C" fn binary_by_front(xs: &[u32]) -> usize {
    lengths!(BinaryGroupBy::new(xs, equal))
}

#[unsafe(no_mangle)]
pub extern "C" fn binary_by_mut_front(xs: &mut [u32]) -> usize {
    lengths!(BinaryGroupByMut::new(xs, equal))
}

#[unsafe(no_mangle)]
pub extern "C" fn binary_by_back(xs: &[u32]) -> usize {
    lengths!(BinaryGroupBy::new(xs, equal).rev())
}

#[unsafe(no_mangle)]
pub extern "C" fn binary_by_mut_back(xs: &mut [u32]) -> usize {
    lengths!(BinaryGroupByMut::new(xs, equal).rev())
}

#[unsafe(no_mangle)]
pub extern "C" fn binary_by_key_front(xs: &[u32]) -> usize {
    lengths!(BinaryGroupByKey::new(xs, key))
}

#[unsafe(no_mangle)]
pub extern "C" fn binary_by_key_mut_front(xs: &mut [u32]) -> usize {
    lengths!(BinaryGroupByKeyMut::new(xs, key))
}

#[unsafe(no_mangle)]
pub extern "C" fn binary_by_key_back(xs: &[u32]) -> usize {
    lengths!(BinaryGroupByKey::new(xs, key).rev())
}

#[unsafe(no_mangle)]
pub extern "C" fn binary_by_key_mut_back(xs: &mut [u32]) -> usize {
    lengths!(BinaryGroupByKeyMut::new(xs, key).rev())
}

#[unsafe(no_mangle)]
pub extern "C" fn exponential_front(xs: &[u32]) -> usize {
    lengths!(ExponentialGroup::new(xs))
}

#[unsafe(no_mangle)]
pub extern "C" fn exponential_mut_front(xs: &mut [u32]) -> usize {
    lengths!(ExponentialGroupMut::new(xs))
}

#[unsafe(no_mangle)]
pub extern "C" fn exponential_back(xs: &[u32]) -> usize {
    lengths!(ExponentialGroup::new(xs).rev())
}

#[unsafe(no_mangle)]
pub extern "C" fn exponential_mut_back(xs: &mut [u32]) -> usize {
    lengths!(ExponentialGroupMut::new(xs).rev())
}

#[unsafe(no_mangle)]
pub extern "C" fn exponential_by_front(xs: &[u32]) -> usize {
    lengths!(ExponentialGroupBy::new(xs, equal))
}

#[unsafe(no_mangle)]
pub extern "C" fn exponential_by_mut_front(xs: &mut [u32]) -> usize {
    lengths!(ExponentialGroupByMut::new(xs, equal))
}

#[unsafe(no_mangle)]
pub extern "C" fn exponential_by_back(xs: &[u32]) -> usize {
    lengths!(ExponentialGroupBy::new(xs, equal).rev())
}

#[unsafe(no_mangle)]
pub extern "C" fn exponential_by_mut_back(xs: &mut [u32]) -> usize {
    lengths!(ExponentialGroupByMut::new(xs, equal).rev())
}

#[unsafe(no_mangle)]
pub extern "C" fn exponential_by_key_front(xs: &[u32]) -> usize {
    lengths!(ExponentialGroupByKey::new(xs, key))
}

#[unsafe(no_mangle)]
pub extern "C" fn exponential_by_key_mut_front(xs: &mut [u32]) -> usize {
    lengths!(ExponentialGroupByKeyMut::new(xs, key))
}

#[unsafe(no_mangle)]
pub extern "C" fn exponential_by_key_back(xs: &[u32]) -> usize {
    lengths!(ExponentialGroupByKey::new(xs, key).rev())
}

#[unsafe(no_mangle)]
pub extern "C" fn exponential_by_key_mut_back(xs: &mut [u32]) -> usize {
    lengths!(ExponentialGroupByKeyMut::new(xs, key).rev())
}

/// Where each of the keys is found, or belongs, in one number.
#[unsafe(no_mangle)]
pub extern "C" fn searches(xs: &[u32], keys: &[u32]) -> usize {
    let mut sum = 0usize;
    for key in keys {
        let place = match exponential_search(xs, key) {
            Ok(place) | Err(place) => place,
        };
        sum = sum.wrapping_mul(31).wrapping_add(place);
    }
    sum
}

/// How many elements are less than each of the keys, in one number.
#[unsafe(no_mangle)]
pub extern "C" fn partition_points(xs: &[u32], keys: &[u32]) -> usize {
    let mut sum = 0usize;
    for key in keys {
        let place = exponential_partition_point(xs, |x| x < key);
        sum = sum.wrapping_mul(31).wrapping_add(place);
    }
    sum
}

/// Where the elements that are equal to each of the keys begin and end, in one number.
#[unsafe(no_mangle)]
pub extern "C" fn equal_places(xs: &[u32], keys: &[u32]) -> usize {
    let mut sum = 0usize;
    for key in keys {
        let places = exponential_equal_places(xs, key);
        sum = sum.wrapping_mul(31).wrapping_add(places.start);
        sum = sum.wrapping_mul(31).wrapping_add(places.end);
    }
    sum
}

/// The lengths of the pairs of a merge join of two ascending slices.
#[unsafe(no_mangle)]
pub extern "C" fn merge_join(left: &[u32], right: &[u32]) -> usize {
    let mut sum = 0usize;
    for (group, partner) in MergeJoin::new(left, itself, right, itself) {
        sum = sum.wrapping_mul(31).wrapping_add(group.len());
        sum = sum.wrapping_mul(31).wrapping_add(partner.len());
    }
    sum
}

/// The lengths of the parts of both sides of a join of them by a comparator.
#[unsafe(no_mangle)]
pub extern "C" fn merge_join_by(left: &[u32], right: &[u32]) -> usize {
    let mut sum = 0usize;
    for part in MergeJoinBy::new(left, right, |x: &u32, y: &u32| x.cmp(y)) {
        if let Some((group, partner)) = part.both() {
            sum = sum.wrapping_mul(31).wrapping_add(group.len());
            sum = sum.wrapping_mul(31).wrapping_add(partner.len());
        }
    }
    sum
}

#[unsafe(no_mangle)]
pub extern "C" fn linear_both_ends(xs: &[u32]) -> usize {
    lengths_from_both_ends!(LinearGroup::new(xs), xs.len())
}

#[unsafe(no_mangle)]
pub extern "C" fn linear_questions(xs: &[u32]) -> usize {
    questions!(LinearGroupBy, xs)
}

#[unsafe(no_mangle)]
pub extern "C" fn binary_questions(xs: &[u32]) -> usize {
    questions!(BinaryGroupBy, xs)
}

#[unsafe(no_mangle)]
pub extern "C" fn exponential_questions(xs: &[u32]) -> usize {
    questions!(ExponentialGroupBy, xs)
}
