//! Slices written through their groups: each filled, also with its key, cleared or reversed, the long ones cleared and counted, and
//! the first and last held at once.
ghost use Rattle.std.specs.Prelude.{◌≡◌, ℕ, [], List, ◌++◌, replicate, length, map, reverse, nat_eq, count_by};
ghost use Rattle.std.specs.Fn.{CalledAt, TakesAt};
ghost use Rattle.slice_group_by.specs.Calls.{IsCallableBy};
ghost use Rattle.slice_group_by.specs.Gives.{groups_of_mut};
ghost use Rattle.slice_group_by.specs.Judges.{by_key};
ghost use Rattle.slice_group_by.specs.Linear.{IsSettled};
ghost use Rattle.slice_group_by.specs.Split.{AreNeighbours, concat, split};
ghost use Rattle.example_walks.specs.Tens.{same_tens, tens};
ghost use Rattle.example_walks.specs.LongGroups.{is_long, cleared_if_long};

use slice_group_by::laws::{
    calls_take_pieces, equal_pieces_are_copies, one_split, pieces_have_keys,
};
use slice_group_by::loans::{Ended, resolve, resolve_and_return, resolve_in};
use slice_group_by::{LinearGroupByKeyMut, LinearGroupMut};

// Each group is filled with its first element, and has ended.
#[tactic(auto, using(std::proofs::lemmas::Grind::common_steps, slice_group_by::proofs::EqualPieces::equal_piece))]
fn filled(slice: &mut [u8]) -> Ended<'_, u8>
    ensures name { result.name ≡ slice.entry.ghost_name }
    ensures value { result.value ≡ slice.old }
{
    one_split::<u8>();
    equal_pieces_are_copies::<u8>();
    let mut groups = LinearGroupMut::new(slice);
    while let Some(group) = groups.next() {
        let first = group[0];
        group.fill(first);
        groups.note_front(Ended::of(group));
    }
    groups.finish()
}

/// Writes the first element of each group over the whole group: the slice holds what it held.
pub fn fill_with_first(slice: &mut [u8])
    ensures { slice.new ≡ slice.old }
{
    resolve(slice, |part| filled(part));
}

// Holds the first and the last group at once, and clears both: what stands between them stays.
fn ends_cleared(slice: &mut [u8]) -> Ended<'_, u8>
    ensures name { result.name ≡ slice.entry.ghost_name }
    ensures value { (a b c : List ℕ) × (slice.old ≡ a ++ (b ++ c))
        × (result.value ≡ replicate (length a) 0 ++ (b ++ replicate (length c) 0))
        × (a ≡ [] → b ≡ []) × (c ≡ [] → b ≡ []) }
{
    let mut groups = LinearGroupMut::new(slice);
    let Some(first) = groups.next() else {
        return groups.finish();
    };
    let Some(last) = groups.next_back() else {
        first.fill(0);
        groups.note_front(Ended::of(first));
        return groups.finish();
    };
    last.fill(0);
    first.fill(0);
    groups.note_front(Ended::of(first));
    groups.note_back(Ended::of(last));
    groups.finish()
}

/// Clears the first and the last group, and nothing between them.
pub fn clear_ends(slice: &mut [u8])
    ensures { (a b c : List ℕ) × (slice.old ≡ a ++ (b ++ c))
        × (slice.new ≡ replicate (length a) 0 ++ (b ++ replicate (length c) 0))
        × (a ≡ [] → b ≡ []) × (c ≡ [] → b ≡ []) }
{
    resolve(slice, |part| ends_cleared(part));
}

// Clears each group, from the back.
fn all_cleared(slice: &mut [u8]) -> Ended<'_, u8>
    ensures name { result.name ≡ slice.entry.ghost_name }
    ensures value { result.value ≡ replicate (length slice.old) 0 }
{
    let mut groups = LinearGroupMut::new(slice);
    while let Some(group) = groups.next_back() {
        group.fill(0);
        groups.note_back(Ended::of(group));
    }
    groups.finish()
}

/// Clears each group.
pub fn clear_all(slice: &mut [u8])
    ensures { slice.new ≡ replicate (length slice.old) 0 }
{
    resolve(slice, |part| all_cleared(part));
}

// Reverses each group in place.
#[tactic(auto, using(std::proofs::lemmas::Grind::common_steps, slice_group_by::proofs::EqualPieces::equal_piece))]
fn reversed(slice: &mut [u8]) -> Ended<'_, u8>
    ensures name { result.name ≡ slice.entry.ghost_name }
    ensures value { result.value ≡ concat (map reverse (split nat_eq slice.old)) }
{
    let mut groups = LinearGroupMut::new(slice);
    while let Some(group) = groups.next() {
        group.reverse();
        groups.note_front(Ended::of(group));
    }
    groups.finish()
}

/// Reverses each group of a vector in place.
#[tactic(auto, using(std::proofs::lemmas::List::with_items_is))]
pub fn reverse_groups_of(vec: &mut Vec<u8>)
    ensures { vec.new.items ≡ concat (map reverse (split nat_eq vec.old.items)) }
{
    resolve_in(vec, |part| reversed(part));
}

// Clears each group of more than `max_len` elements, and counts those.
#[tactic(auto, using(std::proofs::lemmas::Grind::common_steps, slice_group_by::proofs::EqualPieces::equal_piece))]
fn long_cleared(slice: &mut [u8], max_len: usize) -> (Ended<'_, u8>, usize)
    ensures name { result.0.name ≡ slice.entry.ghost_name }
    ensures value { result.0.value ≡ concat (map (cleared_if_long max_len) (split nat_eq slice.old)) }
    ensures count { result.1 ≡ count_by (is_long max_len) (split nat_eq slice.old) }
{
    let mut groups = LinearGroupMut::new(slice);
    let mut count = 0usize;
    while let Some(group) = groups.next() {
        if group.len() > max_len {
            group.fill(0);
            count += 1;
        }
        groups.note_front(Ended::of(group));
    }
    (groups.finish(), count)
}

/// Clears each group of more than `max_len` elements. Gives back how many it cleared.
pub fn clear_long_groups(slice: &mut [u8], max_len: usize) -> usize
    ensures value { slice.new ≡ concat (map (cleared_if_long max_len) (split nat_eq slice.old)) }
    ensures count { result ≡ count_by (is_long max_len) (split nat_eq slice.old) }
{
    resolve_and_return(slice, |part| long_cleared(part, max_len))
}

// Each group that is still to come is filled with its key, by a function that always answers the tens.
fn filled_with_keys<'a, F: FnMut(&u32) -> u32>(
    mut groups: LinearGroupByKeyMut<'a, u32, F, u32>,
) -> Ended<'a, u32>
    requires takes { (func : F) (x : ℕ) → TakesAt F.FnMut func x }
    requires calls { (func after : F) (x key : ℕ) → CalledAt F.FnMut func x key after → (key ≡ tens x) × (after ≡ func) }
    requires callable { IsCallableBy AreNeighbours (by_key F.FnMut nat_eq) (groups_of_mut groups) }
    requires settled { IsSettled (by_key F.FnMut nat_eq) (groups_of_mut groups) same_tens }
    requires before { groups.loans.before ≡ [] }
    requires after { groups.loans.after ≡ [] }
    requires cuts { groups.loans.cuts ≡ [] }
    ensures name { result.name ≡ groups.entry.loans.root }
    ensures value { result.value ≡ map tens groups.entry.remainder }
{
    calls_take_pieces(&groups);
    pieces_have_keys::<u32, u32>();
    while let Some(group) = groups.next() {
        let key = groups.key_of(&group[0]);
        group.fill(key);
        groups.note_front(Ended::of(group));
    }
    groups.finish()
}

fn filled_by_tens(slice: &mut [u32]) -> Ended<'_, u32>
    ensures name { result.name ≡ slice.entry.ghost_name }
    ensures value { result.value ≡ map tens slice.old }
{
    filled_with_keys(LinearGroupByKeyMut::new(slice, |x: &u32| *x / 10))
}

/// Writes over each group of numbers by tens its key: each number becomes its tens.
pub fn fill_with_keys(slice: &mut [u32])
    ensures { slice.new ≡ map tens slice.old }
{
    resolve(slice, |part| filled_by_tens(part));
}
