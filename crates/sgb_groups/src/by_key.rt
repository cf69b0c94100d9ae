//! Groups by a key, for reading and for writing.
ghost use Rattle.std.specs.Prelude.{◌≡◌, ◌<◌, ◌+◌, List};
ghost use Rattle.std.specs.List.{Contains};
ghost use Rattle.std.specs.Fn.{CalledAt, ComputesKey, TakesAt};
ghost use Rattle.sgb_split.specs.declared.judge.KeyJudge.{KeyJudge};
ghost use Rattle.sgb_split.specs.Calls.{IsCallableBy, ComputesBy, at_start};
ghost use Rattle.sgb_split.specs.Judges.{by_key, key_judge};
ghost use Rattle.sgb_split.specs.Judges.{IsCallableOn};
ghost use Rattle.sgb_loans.specs.Loans.{NothingOut};

use crate::groups::SliceGroups;
use crate::groups_mut::SliceGroupsMut;
use crate::way::Way;
use sgb_split::judge::KeyJudge;

type ByKey<'a, T, F, K, W> = SliceGroups<'a, T, KeyJudge<F, K>, W>;

impl<'a, T, K: PartialEq + Drop, F: FnMut(&T) -> K, W: Way> ByKey<'a, T, F, K, W> {
    ghost use Rattle.sgb_groups.specs.Gives.{groups_of, place_of};

    /// All groups of the slice by the key, which are still to come. Nothing is asked yet.
    ///
    /// A question is a call of the key function on the element that stands first in it, then one on the other. The function
    /// must be callable in this way on the pairs that are `allowed` (`Way`), in whatever state earlier calls left it. A closure
    /// whose body may run on all elements, in every state, meets this at once.
    ///
    /// If the function is handed to you, take `F.IsAlwaysCallable func` as a `requires`, call `laws::always_callable_key`, and answer
    /// with its clause `along`, or `apart`: `c.always_callable_key.ensures.along _ _ c.requires`.
    ///
    /// The result is settled for equality of the keys that the function computes. For binary and exponential groups the slice
    /// should be grouped for the key: equal keys should stand side by side, as where the slice ascends by the key.
    #[inline]
    pub fn new(slice: &'a [T], func: F) -> Self
        requires { IsCallableBy (W.allowed T) (by_key F.FnMut K.eq)
            (record { remainder = slice.now; judge = key_judge func }) }
        ensures remainder { (groups_of result).remainder ≡ slice.now }
        ensures place { place_of result ≡ at_start slice.now }
        ensures judge { result.judge ≡ key_judge func }
        ensures callable { IsCallableBy (W.allowed T) (by_key F.FnMut K.eq) (groups_of result) }
        ensures computes { (key : T → K) → ComputesKey F.FnMut key func
            → ComputesBy (W.allowed T) (by_key F.FnMut K.eq) (groups_of result) (λ x y. K.eq (key x) (key y)) }
        ensures settled { (key : T → K) → ComputesKey F.FnMut key func
            → W.fits T (λ x y. K.eq (key x) (key y)) slice.now
            → W.settled T (KeyJudge F K) (by_key F.FnMut K.eq) (groups_of result) (λ x y. K.eq (key x) (key y)) }
    {
        SliceGroups::with_judge(slice, KeyJudge::new(func))
    }

    /// The key of an element: one call of the key function.
    ///
    /// Groups may still be asked for if the function may always be called; if it may be called on each element of a list that has
    /// this one, it still may (`laws::callable_on_elements`). If it computes a key, the groups stay settled.
    #[inline]
    pub fn key_of(&mut self, element: &T) -> K
        requires { TakesAt F.FnMut self.old.judge.func element.now }
        ensures called { CalledAt F.FnMut self.old.judge.func element.now result self.new.judge.func }
        ensures remainder { (groups_of self.new).remainder ≡ (groups_of self.old).remainder }
        ensures place { place_of self.new ≡ place_of self.old }
        ensures always { F.IsAlwaysCallable self.old.judge.func → F.IsAlwaysCallable self.new.judge.func }
        ensures callable { F.IsAlwaysCallable self.old.judge.func
            → IsCallableBy (W.allowed T) (by_key F.FnMut K.eq) (groups_of self.new) }
        ensures callable_on { (xs : List T) → IsCallableOn F.FnMut xs self.old.judge.func → Contains xs element.now
            → IsCallableOn F.FnMut xs self.new.judge.func }
        ensures key { (key : T → K) → ComputesKey F.FnMut key self.old.judge.func → result ≡ key element.now }
        ensures computes { (key : T → K) → ComputesKey F.FnMut key self.old.judge.func
            → ComputesKey F.FnMut key self.new.judge.func }
        ensures settled { (key : T → K) → ComputesKey F.FnMut key self.old.judge.func
            → W.settled T (KeyJudge F K) (by_key F.FnMut K.eq) (groups_of self.old) (λ x y. K.eq (key x) (key y))
            → W.settled T (KeyJudge F K) (by_key F.FnMut K.eq) (groups_of self.new) (λ x y. K.eq (key x) (key y)) }
    {
        (self.judge.func)(element)
    }
}

type ByKeyMut<'a, T, F, K, W> = SliceGroupsMut<'a, T, KeyJudge<F, K>, W>;

impl<'a, T, K: PartialEq + Drop, F: FnMut(&T) -> K, W: Way> ByKeyMut<'a, T, F, K, W> {
    ghost use Rattle.sgb_groups.specs.Gives.{groups_of_mut};

    /// All groups of the slice by the key, which are still to come. Nothing is asked yet, and nothing is out.
    ///
    /// It requires of the key function what `new` for reading requires, of the elements as they are now.
    #[inline]
    pub fn new(slice: &'a mut [T], func: F) -> Self
        requires { IsCallableBy (W.allowed T) (by_key F.FnMut K.eq)
            (record { remainder = slice.old; judge = key_judge func }) }
        ensures remainder { result.remainder ≡ slice.old }
        ensures judge { result.judge ≡ key_judge func }
        ensures callable { IsCallableBy (W.allowed T) (by_key F.FnMut K.eq) (groups_of_mut result) }
        ensures computes { (key : T → K) → ComputesKey F.FnMut key func
            → ComputesBy (W.allowed T) (by_key F.FnMut K.eq) (groups_of_mut result) (λ x y. K.eq (key x) (key y)) }
        ensures settled { (key : T → K) → ComputesKey F.FnMut key func
            → W.fits T (λ x y. K.eq (key x) (key y)) slice.old
            → W.settled T (KeyJudge F K) (by_key F.FnMut K.eq) (groups_of_mut result) (λ x y. K.eq (key x) (key y)) }
        ensures loans { NothingOut slice.entry.ghost_name result.loans }
    {
        SliceGroupsMut::with_judge(slice, KeyJudge::new(func))
    }

    /// The key of an element: one call of the key function.
    ///
    /// Groups may still be asked for if the function may always be called; if it may be called on each element of a list that has
    /// this one, it still may (`laws::callable_on_elements`). If it computes a key, the groups stay settled.
    #[inline]
    pub fn key_of(&mut self, element: &T) -> K
        requires { TakesAt F.FnMut self.old.judge.func element.now }
        ensures called { CalledAt F.FnMut self.old.judge.func element.now result self.new.judge.func }
        ensures remainder { self.new.remainder ≡ self.old.remainder }
        ensures loans { self.new.loans ≡ self.old.loans }
        ensures always { F.IsAlwaysCallable self.old.judge.func → F.IsAlwaysCallable self.new.judge.func }
        ensures callable { F.IsAlwaysCallable self.old.judge.func
            → IsCallableBy (W.allowed T) (by_key F.FnMut K.eq) (groups_of_mut self.new) }
        ensures callable_on { (xs : List T) → IsCallableOn F.FnMut xs self.old.judge.func → Contains xs element.now
            → IsCallableOn F.FnMut xs self.new.judge.func }
        ensures key { (key : T → K) → ComputesKey F.FnMut key self.old.judge.func → result ≡ key element.now }
        ensures computes { (key : T → K) → ComputesKey F.FnMut key self.old.judge.func
            → ComputesKey F.FnMut key self.new.judge.func }
        ensures settled { (key : T → K) → ComputesKey F.FnMut key self.old.judge.func
            → W.settled T (KeyJudge F K) (by_key F.FnMut K.eq) (groups_of_mut self.old) (λ x y. K.eq (key x) (key y))
            → W.settled T (KeyJudge F K) (by_key F.FnMut K.eq) (groups_of_mut self.new) (λ x y. K.eq (key x) (key y)) }
    {
        (self.judge.func)(element)
    }
}
