//! Walks, and the definitions that contracts cite, computed at small cases.
ghost use Rattle.std.specs.Prelude.{◌≡◌, ◌+◌, ◌-◌, ◌*◌, ℕ, true, false, [], ◌∷◌, Some, None, nat_eq, nat_lt};
ghost use Rattle.slice_group_by.specs.End.TheVariants.{Front, Back};
ghost use Rattle.slice_group_by.specs.Linear.{questions};
ghost use Rattle.slice_group_by.specs.Queue.{pops, after_pops};
ghost use Rattle.slice_group_by.specs.Searching.{digits};
ghost use Rattle.slice_group_by.specs.Split.{split, refused_pairs};

use crate::calls::Group;
use slice_group_by::{BinaryGroup, End, ExponentialGroup, GroupQueue, LinearGroup, walk};

#[test]
fn with_no_ends(rt: HostRuntime) {
    let mut groups = LinearGroup::new(&[1, 1, 2]);
    let mut out: [Group; 0] = [];
    walk(&mut groups, &[], &mut out);
    assert!(rt; groups.remainder() == [1, 1, 2].as_slice());
    assert!(rt; groups.next() == Some(&[1, 1]));
}

#[test]
fn over_nothing(rt: HostRuntime) {
    let mut out: [Group; 2] = [Some(&[7]); 2];
    walk(
        &mut LinearGroup::new(&[]),
        &[End::Front, End::Back],
        &mut out,
    );
    assert!(rt; out == [None, None]);
}

// The five ends of the number: a bit for each, from the lowest on.
fn ends_of(number: usize) -> [End; 5] {
    [1, 2, 4, 8, 16].map(|bit| {
        if number & bit == 0 {
            End::Front
        } else {
            End::Back
        }
    })
}

// What five calls give, at the ends of the number.
fn five<Q: GroupQueue<Item = &'static [i32]> + Drop>(mut groups: Q, number: usize) -> [Group; 5]
    requires { Q.can_pop groups }
{
    let mut out: [Group; 5] = [None; 5];
    walk(&mut groups, &ends_of(number), &mut out);
    out
}

const SORTED: &[i32] = &[1, 1, 1, 2, 2, 2, 3, 3];

fn five_of_linear(number: usize) -> [Group; 5] {
    five(LinearGroup::new(SORTED), number)
}

fn five_of_binary(number: usize) -> [Group; 5] {
    five(BinaryGroup::new(SORTED), number)
}

fn five_of_exponential(number: usize) -> [Group; 5] {
    five(ExponentialGroup::new(SORTED), number)
}

#[test]
fn families_answer_alike(rt: HostRuntime) {
    for number in 0..32 {
        let wanted = five_of_linear(number);
        assert!(rt; five_of_binary(number) == wanted);
        assert!(rt; five_of_exponential(number) == wanted);
    }
}

fn splits()
    ensures nothing { split nat_eq [] ≡ [] }
    ensures equal { split nat_eq (1 ∷ 1 ∷ 1 ∷ 3 ∷ 3 ∷ 2 ∷ 2 ∷ 2 ∷ [])
        ≡ (1 ∷ 1 ∷ 1 ∷ []) ∷ (3 ∷ 3 ∷ []) ∷ (2 ∷ 2 ∷ 2 ∷ []) ∷ [] }
    ensures ascending { split nat_lt (1 ∷ 2 ∷ 3 ∷ 2 ∷ 3 ∷ []) ≡ (1 ∷ 2 ∷ 3 ∷ []) ∷ (2 ∷ 3 ∷ []) ∷ [] }
    ensures refused { refused_pairs nat_eq (1 ∷ 1 ∷ 1 ∷ 3 ∷ 3 ∷ 2 ∷ 2 ∷ 2 ∷ []) ≡ 2 }
{}

// Of 1, 2, 3, 2, 3 under `<` the first group has three elements and the last has two.
fn questions()
    ensures front { questions {A = ℕ} Front (1 ∷ 2 ∷ 3 ∷ 2 ∷ 3 ∷ []) 3
        ≡ ((1, 2), true) ∷ ((2, 3), true) ∷ ((3, 2), false) ∷ [] }
    ensures front_end { questions {A = ℕ} Front (2 ∷ 3 ∷ []) 2 ≡ ((2, 3), true) ∷ [] }
    ensures back { questions {A = ℕ} Back (1 ∷ 2 ∷ 3 ∷ 2 ∷ 3 ∷ []) 2 ≡ ((2, 3), true) ∷ ((3, 2), false) ∷ [] }
    ensures back_end { questions {A = ℕ} Back (1 ∷ 2 ∷ 3 ∷ []) 3 ≡ ((2, 3), true) ∷ ((1, 2), true) ∷ [] }
{}

fn queue_of_three()
    ensures answers { pops {X = ℕ} (1 ∷ 2 ∷ 3 ∷ []) (Front ∷ Back ∷ Front ∷ Back ∷ Front ∷ [])
        ≡ Some 1 ∷ Some 3 ∷ Some 2 ∷ None ∷ None ∷ [] }
    ensures left { after_pops {X = ℕ} (1 ∷ 2 ∷ 3 ∷ []) (Front ∷ Back ∷ []) ≡ 2 ∷ [] }
{}

// The most questions of a search that halves n places but one, and of one that gallops to a place.
#[tactic(auto, unfolding(sgb_search::specs::Searching::digits))]
fn bounds()
    ensures one { digits (1 - 1) ≡ 0 }
    ensures two { digits (2 - 1) ≡ 1 }
    ensures three { digits (3 - 1) ≡ 2 }
    ensures four { digits (4 - 1) ≡ 2 }
    ensures five { digits (5 - 1) ≡ 3 }
    ensures eight { digits (8 - 1) ≡ 3 }
    ensures nine { digits (9 - 1) ≡ 4 }
    ensures thousand { digits (1000 - 1) ≡ 10 }
    ensures to_1 { 2 * digits 1 + 1 ≡ 3 }
    ensures to_2 { 2 * digits 2 + 1 ≡ 5 }
    ensures to_3 { 2 * digits 3 + 1 ≡ 5 }
    ensures to_4 { 2 * digits 4 + 1 ≡ 7 }
    ensures to_7 { 2 * digits 7 + 1 ≡ 7 }
    ensures to_8 { 2 * digits 8 + 1 ≡ 9 }
    ensures to_10 { 2 * digits 10 + 1 ≡ 9 }
    ensures to_14 { 2 * digits 14 + 1 ≡ 9 }
    ensures to_1001 { 2 * digits 1001 + 1 ≡ 21 }
{}

#[test]
fn definitions_at_small_cases() {
    splits();
    questions();
    queue_of_three();
    bounds();
}
