//! Predicates that may be called only on some elements, or never.
ghost use Rattle.std.specs.Prelude.{◌≡◌, ◌≢◌, ◌<◌, [], ◌∷◌};

use crate::calls::gives;
use slice_group_by::{BinaryGroupBy, ExponentialGroupBy, GroupBy, LinearGroupBy};

#[derive(Drop)]
enum Guarded {
    Valid(u8),
    Invalid(u8),
}

// Says yes, and may be called only on two valid elements.
fn accept_valid(a: &Guarded, b: &Guarded) -> bool
    requires left { (n : _) × (a.now ≡ Guarded.Valid n) }
    requires right { (n : _) × (b.now ≡ Guarded.Valid n) }
{
    true
}

fn valid_between_invalid() -> [Guarded; 4]
    ensures { result ≡ Guarded.Invalid 0 ∷ Guarded.Valid 1 ∷ Guarded.Valid 2 ∷ Guarded.Invalid 3 ∷ [] }
{
    [
        Guarded::Invalid(0),
        Guarded::Valid(1),
        Guarded::Valid(2),
        Guarded::Invalid(3),
    ]
}

fn is_valid_part(group: Option<&[Guarded]>) -> bool {
    matches!(group, Some([Guarded::Valid(1), Guarded::Valid(2)]))
}

// Whether the valid part comes as one group, and nothing after it.
fn comes_whole<'a, I: Iterator<Item = &'a [Guarded]>>(groups: I) -> bool
    requires { I.can_next groups }
{
    let mut groups = groups;
    match groups.next() {
        Some(group) => is_valid_part(Some(group)) && groups.next().is_none(),
        None => false,
    }
}

fn linear_overflow() -> bool {
    let array = valid_between_invalid();
    comes_whole(LinearGroupBy::new(&array[1..3], accept_valid))
}

fn binary_overflow() -> bool {
    let array = valid_between_invalid();
    comes_whole(BinaryGroupBy::new(&array[1..3], accept_valid))
}

fn exponential_overflow() -> bool {
    let array = valid_between_invalid();
    comes_whole(ExponentialGroupBy::new(&array[1..3], accept_valid))
}

#[test]
fn overflow(rt: HostRuntime) {
    assert!(rt; linear_overflow() && binary_overflow() && exponential_overflow());
}

fn linear_last_overflow() -> bool {
    let array = valid_between_invalid();
    is_valid_part(LinearGroupBy::new(&array[1..3], accept_valid).last())
}

fn binary_last_overflow() -> bool {
    let array = valid_between_invalid();
    is_valid_part(BinaryGroupBy::new(&array[1..3], accept_valid).last())
}

fn exponential_last_overflow() -> bool {
    let array = valid_between_invalid();
    is_valid_part(ExponentialGroupBy::new(&array[1..3], accept_valid).last())
}

#[test]
fn last_overflow(rt: HostRuntime) {
    assert!(rt; linear_last_overflow() && binary_last_overflow() && exponential_last_overflow());
}

const FIVE: &[u8] = &[1, 2, 3, 4, 5];

// Says yes, and may be called only where the left element is below the right one.
fn ascend_always(a: &u8, b: &u8) -> bool
    requires { a.now < b.now }
{
    true
}

#[test]
fn predicate_call_param_order(rt: HostRuntime) {
    assert!(rt; gives(LinearGroupBy::new(FIVE, ascend_always), &[FIVE]));
}

#[test]
fn rev_predicate_call_param_order(rt: HostRuntime) {
    assert!(rt; gives(LinearGroupBy::new(FIVE, ascend_always).rev(), &[FIVE]));
}

// Says no, and may be called only on two different elements.
fn differ_always(a: &u8, b: &u8) -> bool
    requires { a.now ≢ b.now }
{
    false
}

const THREE: &[u8] = &[1, 2, 3];

const ONE_BY_ONE: [&[u8]; 3] = [&[1], &[2], &[3]];

#[test]
fn asks_no_element_about_itself(rt: HostRuntime) {
    assert!(rt; gives(THREE.binary_group_by(differ_always), &ONE_BY_ONE));
    assert!(rt; gives(THREE.exponential_group_by(differ_always), &ONE_BY_ONE));
}

const ONE: &[u8] = &[1];

// Groups of one element by a predicate that may never be called.
fn linear_alone() -> bool {
    let never = |_a: &u8, _b: &u8| -> bool
        requires { ⊥ }
    { true };
    gives(ONE.linear_group_by(never), &[ONE])
}

fn binary_alone() -> bool {
    let never = |_a: &u8, _b: &u8| -> bool
        requires { ⊥ }
    { true };
    gives(ONE.binary_group_by(never), &[ONE])
}

fn exponential_alone() -> bool {
    let never = |_a: &u8, _b: &u8| -> bool
        requires { ⊥ }
    { true };
    gives(ONE.exponential_group_by(never), &[ONE])
}

#[test]
fn one_element_asks_nothing(rt: HostRuntime) {
    assert!(rt; linear_alone() && binary_alone() && exponential_alone());
}
