//! Walks over groups by closures: one that only answers, one that captures, one that counts its calls, a key, and any closure
//! that may always be called.
ghost use Rattle.std.specs.Prelude.{◌≡◌, ◌/◌, Bool, length, map, option_map, nat_eq, nat_lt};
ghost use Rattle.std.specs.Fn.{ComputesOnPairs, ComputesKey};
ghost use Rattle.slice_group_by.specs.Split.{split};
ghost use Rattle.slice_group_by.specs.Queue.{pops};

use slice_group_by::laws::{always_callable, always_callable_key};
use slice_group_by::{End, GroupBy, LinearGroupBy, LinearGroupByKey, walk};

/// A walk by a test that is not symmetric.
pub fn ascending<'a>(slice: &'a &[u32], ends: &[End], out: &mut [Option<&'a [u32]>])
    requires { length out.old ≡ length ends.now }
    ensures { map (option_map (λ group. group.now)) out.new ≡ pops (split nat_lt slice.now.now) ends.now }
{
    let mut groups = slice.linear_group_by(|a, b| a < b);
    walk(&mut groups, ends, out);
}

/// A walk by a closure that captures.
pub fn below<'a>(slice: &'a &[u32], k: u32, ends: &[End], out: &mut [Option<&'a [u32]>])
    requires { length out.old ≡ length ends.now }
    ensures { map (option_map (λ group. group.now)) out.new
        ≡ pops (split (λ _ b. nat_lt b k) slice.now.now) ends.now }
{
    let mut groups = slice.linear_group_by(|_a, b| *b < k);
    walk(&mut groups, ends, out);
}

/// A walk by a closure that counts its calls.
pub fn counted<'a>(slice: &'a &[u32], ends: &[End], out: &mut [Option<&'a [u32]>]) -> u32
    requires { length out.old ≡ length ends.now }
    ensures { map (option_map (λ group. group.now)) out.new ≡ pops (split nat_lt slice.now.now) ends.now }
{
    let mut count = 0u32;
    let mut groups = slice.linear_group_by(|a: &u32, b: &u32| {
        count = count.wrapping_add(1);
        a < b
    });
    walk(&mut groups, ends, out);
    count
}

/// A walk by a key.
pub fn by_tens<'a>(slice: &'a &[u8], ends: &[End], out: &mut [Option<&'a [u8]>])
    requires { length out.old ≡ length ends.now }
    ensures { map (option_map (λ group. group.now)) out.new
        ≡ pops (split (λ a b. nat_eq (a / 10) (b / 10)) slice.now.now) ends.now }
{
    let mut groups = slice.linear_group_by_key(|a| *a / 10);
    walk(&mut groups, ends, out);
}

/// A walk by any closure that may always be called.
pub fn groups_by<'a, T, P: FnMut(&T, &T) -> bool>(
    xs: &'a [T],
    predicate: P,
    ends: &[End],
    out: &mut [Option<&'a [T]>],
)
    requires len { length out.old ≡ length ends.now }
    requires callable { P.IsAlwaysCallable predicate }
    ensures { (p : T → T → Bool) → ComputesOnPairs P.FnMut p predicate
        → map (option_map (λ group. group.now)) out.new ≡ pops (split p xs.now) ends.now }
{
    always_callable::<T, P>();
    let mut groups = LinearGroupBy::new(xs, predicate);
    walk(&mut groups, ends, out);
}

/// A walk by any key function that may always be called.
pub fn groups_by_key<'a, T, F: FnMut(&T) -> K, K: PartialEq + Drop>(
    xs: &'a [T],
    func: F,
    ends: &[End],
    out: &mut [Option<&'a [T]>],
)
    requires len { length out.old ≡ length ends.now }
    requires callable { F.IsAlwaysCallable func }
    ensures { (key : T → K) → ComputesKey F.FnMut key func
        → map (option_map (λ group. group.now)) out.new
        ≡ pops (split (λ a b. K.eq (key a) (key b)) xs.now) ends.now }
{
    always_callable_key::<T, F, K>();
    let mut groups = LinearGroupByKey::new(xs, func);
    walk(&mut groups, ends, out);
}
