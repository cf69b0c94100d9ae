//! Classes of bytes, and the judge of bytes of one class.
ghost use Rattle.std.specs.Prelude.{◌≡◌, ℕ, ◌+◌, ◌*◌, ◌<◌, ◌≤◌, cond, not, refl, length, map};
ghost use Rattle.std.specs.Ordering.{on};
ghost use Rattle.std.specs.Simd.Lanes.{mask_l, chunk};
ghost use Rattle.sgb_numbers.specs.Numbers.{boundaries};
ghost use Rattle.slice_group_simd.specs.Classes.{by_class};

use sgb_numbers::masks::{MaskJudge, Masks};
use sgb_split::judge::Judge;
use std::marker::PhantomData;

/// Classes of bytes, for `LinearClassGroup`. Implement `class`, and say in `class_of` what it answers. The other methods
/// look at sixteen bytes: they ask `class` of each, unless you override them with vectors, as `AsciiClasses` does.
///
/// ```
/// ghost use Rattle.std.specs.Prelude.{nat_eq, ◌%◌};
///
/// impl ByteClasses for Parity {
///     type Class = bool;
///     ghost class_of = { λ byte. nat_eq (byte % 2) 0 };
///     fn class(byte: u8) -> bool {
///         byte % 2 == 0
///     }
/// }
/// ```
pub trait ByteClasses {
    type Class: Copy + PartialEq;

    ghost class_of: { ℕ → Self.Class };

    /// The class of a byte.
    fn class(byte: u8) -> Self::Class
        ensures { result ≡ class_of byte };

    /// Which of sixteen bytes from the place `at` on are not of the class of `byte`: bit k is set for that at `at + k`.
    #[inline(always)]
    fn unlike(byte: u8, slice: &[u8], at: usize) -> u64
        requires { at + 16 ≤ length slice.now }
        ensures { result ≡ mask_l (map (λ y. not (on class_of Self.Class.eq y byte)) (chunk at 16 slice.now)) }
    {
        let class = Self::class(byte);
        let mut mask = 0;
        let mut k = 16;
        while 0 < k {
            k -= 1;
            mask = pushed(mask, Self::class(slice[at + k]) != class);
        }
        mask
    }

    /// Which of sixteen neighbouring pairs from the place `at` on are of two classes: bit k is set for the bytes at
    /// `at + k` and the next.
    #[inline(always)]
    fn cuts(slice: &[u8], at: usize) -> u64
        requires { at + 16 < length slice.now }
        ensures { result ≡ mask_l (chunk at 16 (boundaries (on class_of Self.Class.eq) slice.now)) }
    {
        let mut next = Self::class(slice[at + 16]);
        let mut mask = 0;
        let mut k = 16;
        while 0 < k {
            k -= 1;
            let class = Self::class(slice[at + k]);
            mask = pushed(mask, class != next);
            next = class;
        }
        mask
    }
}

// A mask of sixteen bits at most, with one bit more below its lowest.
#[inline(always)]
fn pushed(mask: u64, bit: bool) -> u64
    requires { mask < 65536 }
    ensures { result ≡ 2 * mask + cond bit 1 0 }
{
    2 * mask + bit as u64
}

/// Asks whether two bytes are of one class. It may always be asked.
#[derive(Drop)]
#[derive_where(Clone, Copy)]
pub struct ClassJudge<C> {
    classes: PhantomData<C>,
}

impl<C> ClassJudge<C> {
    /// The judge of these classes.
    #[inline]
    pub fn new() -> ClassJudge<C> {
        ClassJudge {
            classes: PhantomData,
        }
    }
}

impl<C: ByteClasses> Judge<u8> for ClassJudge<C> {
    ghost may_ask = { (by_class C.class_of C.Class.eq).may_ask };

    ghost answers = { (by_class C.class_of C.Class.eq).answers };

    #[inline]
    fn ask(&mut self, first: &u8, second: &u8) -> bool {
        <ClassJudge<C> as Masks<u8>>::same(first, second)
    }
}

impl<C: ByteClasses> Masks<u8> for ClassJudge<C> {
    ghost use Rattle.std.specs.Cmp.{on_per};

    ghost same = { on C.class_of C.Class.eq };

    #[inline(always)]
    fn same(first: &u8, second: &u8) -> bool {
        C::class(*first) == C::class(*second)
    }

    #[inline(always)]
    fn unlike(one: &u8, slice: &[u8], at: usize) -> u64 {
        C::unlike(*one, slice, at)
    }

    #[inline(always)]
    fn cuts(slice: &[u8], at: usize) -> u64 {
        C::cuts(slice, at)
    }

    ghost laws = { on_per C.class_of C.Class.laws };
}

impl<C: ByteClasses> MaskJudge<u8> for ClassJudge<C> {
    ghost asks = { λ _ _. tt };

    ghost tells = { λ _ _. refl };

    ghost only = { λ _ _ _ _ e. e };
}
