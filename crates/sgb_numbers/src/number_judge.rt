//! The judge of equal numbers.
ghost use Rattle.std.specs.Prelude.{refl};

use crate::lanes::Lanes;
use crate::masks::{MaskJudge, Masks};
use sgb_split::judge::Judge;

/// Asks `==` of numbers. It may always be asked, and counts nothing: how often it compares, no contract says.
#[derive(Clone, Copy, Drop)]
pub struct NumberJudge {}

impl<T: Lanes> Judge<T> for NumberJudge {
    ghost use Rattle.sgb_numbers.specs.Numbers.{by_number};

    ghost may_ask = { (by_number T.eq).may_ask };

    ghost answers = { (by_number T.eq).answers };

    #[inline]
    fn ask(&mut self, first: &T, second: &T) -> bool {
        <NumberJudge as Masks<T>>::same(first, second)
    }
}

impl<T: Lanes> Masks<T> for NumberJudge {
    ghost same = { T.eq };

    #[inline(always)]
    fn same(first: &T, second: &T) -> bool {
        first == second
    }

    #[inline(always)]
    fn unlike(one: &T, slice: &[T], at: usize) -> u64 {
        T::unlike(one, slice, at)
    }

    #[inline(always)]
    fn cuts(slice: &[T], at: usize) -> u64 {
        T::cuts(slice, at)
    }

    ghost laws = { T.PartialEq.laws };
}

impl<T: Lanes> MaskJudge<T> for NumberJudge {
    ghost asks = { λ _ _. tt };

    ghost tells = { λ _ _. refl };

    ghost only = { λ _ _ _ _ e. e };
}
