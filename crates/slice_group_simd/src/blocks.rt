//! Sixty-four neighbouring pairs, or elements, at a time.
ghost use Rattle.std.specs.Prelude.{◌≡◌, ◌+◌, ◌-◌, ◌*◌, ◌<◌, ◌≤◌, not, length, map, reverse};
ghost use Rattle.std.specs.Simd.Lanes.{mask_l, chunk};
ghost use Rattle.sgb_numbers.specs.Numbers.{boundaries};

use sgb_numbers::masks::Masks;

/// Which of 64 neighbouring pairs from the place `at` on differ.
#[inline(always)]
pub(crate) fn block<T, M: Masks<T>>(slice: &[T], at: usize) -> u64
    requires { at + 64 < length slice.now }
    ensures { result ≡ mask_l (chunk at 64 (boundaries M.same slice.now)) }
{
    joined(
        M::cuts(slice, at),
        M::cuts(slice, at + 16),
        M::cuts(slice, at + 32),
        M::cuts(slice, at + 48),
    )
}

/// Which of sixteen neighbouring pairs from the place `at` on differ, the last one first: pairs of the reversed slice.
#[inline(always)]
pub(crate) fn cuts_back<T, M: Masks<T>>(slice: &[T], at: usize) -> u64
    requires { at + 16 < length slice.now }
    ensures { result ≡ mask_l (chunk (length slice.now - 1 - (at + 16)) 16 (boundaries M.same (reverse slice.now))) }
{
    (M::cuts(slice, at) as u16).reverse_bits() as u64
}

/// Which of 64 neighbouring pairs from the place `at` on differ, the last one first: pairs of the reversed slice.
#[inline(always)]
pub(crate) fn block_back<T, M: Masks<T>>(slice: &[T], at: usize) -> u64
    requires { at + 64 < length slice.now }
    ensures { result ≡ mask_l (chunk (length slice.now - 1 - (at + 64)) 64 (boundaries M.same (reverse slice.now))) }
{
    joined(
        cuts_back::<T, M>(slice, at + 48),
        cuts_back::<T, M>(slice, at + 32),
        cuts_back::<T, M>(slice, at + 16),
        cuts_back::<T, M>(slice, at),
    )
}

/// Which of 64 elements from the place `at` on are not the same as `one`.
#[inline(always)]
pub(crate) fn unlike_block<T, M: Masks<T>>(one: &T, slice: &[T], at: usize) -> u64
    requires { at + 64 ≤ length slice.now }
    ensures { result ≡ mask_l (map (λ y. not (M.same y one.now)) (chunk at 64 slice.now)) }
{
    joined(
        M::unlike(one, slice, at),
        M::unlike(one, slice, at + 16),
        M::unlike(one, slice, at + 32),
        M::unlike(one, slice, at + 48),
    )
}

/// Four masks of sixteen as one of 64, the lowest bits first.
#[inline(always)]
fn joined(a: u64, b: u64, c: u64, d: u64) -> u64
    requires { (a < 65536) × (b < 65536) × (c < 65536) × (d < 65536) }
    ensures { result ≡ a + 65536 * (b + 65536 * (c + 65536 * d)) }
{
    a + 65536 * (b + 65536 * (c + 65536 * d))
}
