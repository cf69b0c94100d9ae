//! Groups by the methods, and by `new` where it asks for less.
ghost use Rattle.std.specs.Str.{IsUtf8};
ghost use Rattle.slice_group_by.specs.Calls.{IsCallableBy};
ghost use Rattle.slice_group_by.specs.Judges.{by_char_key, by_key, char_key_judge, key_judge};
ghost use Rattle.slice_group_by.specs.Split.{AreApart, AreNeighbours};
ghost use Rattle.slice_group_by.specs.Texts.{in_characters};

use slice_group_by::laws::{always_callable, always_callable_chars};
use slice_group_by::{
    AsMutSlice, Elements, ExponentialGroupByKey, ExponentialGroupByKeyMut, GroupBy, GroupByMut,
    StrGroupBy, StrGroupByMut,
};
use slice_group_simd::{ByteClasses, GroupByClass, GroupByNumber, Lanes};
use std::alloc::Allocator;
use std::convert::AsStr;

pub fn by_equality<T: PartialEq>(xs: &[T], mut ys: &mut [T]) {
    let _ = xs.linear_group();
    let _ = xs.binary_group();
    let _ = xs.exponential_group();
    let _ = ys.linear_group_mut();
    let _ = ys.binary_group_mut();
    let _ = ys.exponential_group_mut();
}

pub fn by_predicate<T, P: FnMut(&T, &T) -> bool>(xs: &[T], p: P, q: P, r: P)
    requires p { P.IsAlwaysCallable p }
    requires q { P.IsAlwaysCallable q }
    requires r { P.IsAlwaysCallable r }
{
    always_callable::<T, P>();
    let _ = xs.linear_group_by(p);
    let _ = xs.binary_group_by(q);
    let _ = xs.exponential_group_by(r);
}

pub fn by_predicate_mut<T, P: FnMut(&T, &T) -> bool>(mut xs: &mut [T], p: P, q: P, r: P)
    requires p { P.IsAlwaysCallable p }
    requires q { P.IsAlwaysCallable q }
    requires r { P.IsAlwaysCallable r }
{
    always_callable::<T, P>();
    let _ = xs.linear_group_by_mut(p);
    let _ = xs.binary_group_by_mut(q);
    let _ = xs.exponential_group_by_mut(r);
}

pub fn by_key<T, F: FnMut(&T) -> K, K: PartialEq + Drop>(xs: &[T], f: F, g: F, h: F)
    requires f { IsCallableBy AreNeighbours (by_key F.FnMut K.eq) (record { remainder = xs.now; judge = key_judge f }) }
    requires g { IsCallableBy AreApart (by_key F.FnMut K.eq) (record { remainder = xs.now; judge = key_judge g }) }
    requires h { IsCallableBy AreApart (by_key F.FnMut K.eq) (record { remainder = xs.now; judge = key_judge h }) }
{
    let _ = xs.linear_group_by_key(f);
    let _ = xs.binary_group_by_key(g);
    let _ = ExponentialGroupByKey::new(xs, h);
}

pub fn by_key_mut<T, F: FnMut(&T) -> K, K: PartialEq + Drop>(
    mut xs: &mut [T],
    mut ys: &mut [T],
    zs: &mut [T],
    f: F,
    g: F,
    h: F,
)
    requires f { IsCallableBy AreNeighbours (by_key F.FnMut K.eq) (record { remainder = xs.old; judge = key_judge f }) }
    requires g { IsCallableBy AreApart (by_key F.FnMut K.eq) (record { remainder = ys.old; judge = key_judge g }) }
    requires h { IsCallableBy AreApart (by_key F.FnMut K.eq) (record { remainder = zs.old; judge = key_judge h }) }
{
    let _ = xs.linear_group_by_key_mut(f);
    let _ = ys.binary_group_by_key_mut(g);
    let _ = ExponentialGroupByKeyMut::new(zs, h);
}

// As in the Rust crate, these two methods ask for a function that keeps no state.
pub fn by_stateless_key<T, F: Fn(&T) -> K, K: PartialEq + Drop>(
    xs: &[T],
    mut ys: &mut [T],
    f: F,
    g: F,
)
    requires f { IsCallableBy AreApart (by_key F.FnMut K.eq) (record { remainder = xs.now; judge = key_judge f }) }
    requires g { IsCallableBy AreApart (by_key F.FnMut K.eq) (record { remainder = ys.old; judge = key_judge g }) }
{
    let _ = xs.exponential_group_by_key(f);
    let _ = ys.exponential_group_by_key_mut(g);
}

pub fn of_numbers<T: Lanes>(xs: &[T]) {
    let _ = xs.linear_number_group();
}

pub fn classes_by_method<C: ByteClasses>(bytes: &[u8]) {
    let _ = bytes.linear_class_group::<C>();
}

pub fn of_characters<P: FnMut(char, char) -> bool>(text: &str, mut bytes: &mut [u8], p: P, q: P)
    requires utf8 { IsUtf8 bytes.old }
    requires p { P.IsAlwaysCallable p }
    requires q { P.IsAlwaysCallable q }
{
    always_callable_chars::<P>();
    let _ = text.linear_group_by(p);
    let _ = StrGroupByMut::linear_group_by_mut(&mut bytes, q);
}

pub fn by_key_of_character<F: FnMut(char) -> K, K: PartialEq + Drop>(
    text: &str,
    mut bytes: &mut [u8],
    f: F,
    g: F,
)
    requires utf8 { IsUtf8 bytes.old }
    requires f { IsCallableBy AreNeighbours (by_char_key F.FnMut K.eq)
        (in_characters (record { text = text.now; judge = char_key_judge f })) }
    requires g { IsCallableBy AreNeighbours (by_char_key F.FnMut K.eq)
        (in_characters (record { text = bytes.old; judge = char_key_judge g })) }
{
    let _ = text.linear_group_by_key(f);
    let _ = StrGroupByMut::linear_group_by_key_mut(&mut bytes, g);
}

// What holds the elements, or the text.

pub fn of_holders<T: PartialEq, S: Elements<T>, A: Allocator, const N: usize>(
    holder: &S,
    slice: &&mut [T],
    array: &[T; N],
    vec: &Vec<T, A>,
) {
    let _ = holder.linear_group();
    let _ = slice.linear_group();
    let _ = array.linear_group();
    let _ = vec.linear_group();
}

pub fn of_holders_mut<T: PartialEq, S: AsMutSlice<T>, A: Allocator, const N: usize>(
    holder: &mut S,
    array: &mut [T; N],
    vec: &mut Vec<T, A>,
) {
    let _ = holder.linear_group_mut();
    let _ = array.linear_group_mut();
    let _ = vec.linear_group_mut();
}

pub fn of_texts<S: AsStr, A: Allocator, B: AsMutSlice<u8>>(
    text: &S,
    string: &String<A>,
    bytes: &mut B,
)
    requires { IsUtf8 (B.elements bytes.old) }
{
    let _ = text.linear_group();
    let _ = string.linear_group();
    let _ = StrGroupByMut::linear_group_mut(bytes);
}
