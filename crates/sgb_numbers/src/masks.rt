//! What tells which elements are the same, sixteen at a time.
ghost use Rattle.std.specs.Prelude.{◌≡◌, ◌+◌, ◌<◌, ◌≤◌, not, Bool, length, map};
ghost use Rattle.std.specs.Cmp.{IsPartialEquivalence};
ghost use Rattle.std.specs.Simd.Lanes.{mask_l, chunk};
ghost use Rattle.sgb_numbers.specs.Numbers.{boundaries};

use sgb_split::judge::Judge;

/// Tells which elements of a slice are the same: of two, or of sixteen at a time, as a mask.
pub trait Masks<T> {
    // Whether two elements are the same.
    ghost same: { T → T → Bool };

    /// Whether the two are the same.
    fn same(first: &T, second: &T) -> bool
        ensures { result ≡ same first.now second.now };

    /// As `Lanes::unlike`: which of sixteen are not the same as `one`.
    fn unlike(one: &T, slice: &[T], at: usize) -> u64
        requires { at + 16 ≤ length slice.now }
        ensures { result ≡ mask_l (map (λ y. not (same y one.now)) (chunk at 16 slice.now)) };

    /// As `Lanes::cuts`: which of sixteen neighbouring pairs differ.
    fn cuts(slice: &[T], at: usize) -> u64
        requires { at + 16 < length slice.now }
        ensures { result ≡ mask_l (chunk at 16 (boundaries same slice.now)) };

    ghost laws: { IsPartialEquivalence same };
}

/// A judge that answers whether two elements are the same: it may always be asked, and no question changes it.
pub trait MaskJudge<T>: Judge<T> + Masks<T> {
    ghost asks: { (j : Self) (q : T × T) → Self.may_ask j q };

    ghost tells: { (j : Self) (q : T × T) → Self.answers j q (Self.same q.0 q.1) j };

    ghost only: { (j : Self) (q : T × T) (b : Bool) (k : Self) → Self.answers j q b k → b ≡ Self.same q.0 q.1 };
}
