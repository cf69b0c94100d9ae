//! A slice of keys and counts that ascends by the key, with a total kept for each key.
ghost use Rattle.std.specs.Prelude.{◌≡◌, ◌≤◌, [], map, nat_eq};
ghost use Rattle.slice_group_by.specs.Calls.{IsCallableBy};
ghost use Rattle.slice_group_by.specs.Split.{AreApart, split, concat};
ghost use Rattle.std.specs.Ordering.{nat_cmp};
ghost use Rattle.slice_group_by.specs.Judges.{by_key};
ghost use Rattle.slice_group_by.specs.Searching.{IsSettledApart};
ghost use Rattle.slice_group_by.specs.Gives.{groups_of_mut};
ghost use Rattle.slice_group_by.specs.Search.{NeverDescends};
ghost use Rattle.example_counts.specs.Keys.{same_key};
ghost use Rattle.example_counts.specs.Totals.{total, kept};

use crate::joins::Entry;
use slice_group_by::ExponentialGroupByKeyMut;
use slice_group_by::laws::{ascending_is_grouped, calls_take_pieces, notes_keep_pieces};
use slice_group_by::loans::{Ended, resolve};

fn total_of(group: &[Entry]) -> u32
    requires { total group.now ≤ 4294967295 }
    ensures { result ≡ total group.now }
{
    group.iter().map(|e| e.1).sum()
}

// Keeps the total of each group that is still to come.
fn totals_kept<'a, F: FnMut(&Entry) -> u32>(
    mut groups: ExponentialGroupByKeyMut<'a, Entry, F, u32>,
) -> Ended<'a, Entry>
    requires callable { IsCallableBy AreApart (by_key F.FnMut nat_eq) (groups_of_mut groups) }
    requires settled { IsSettledApart (by_key F.FnMut nat_eq) (groups_of_mut groups) same_key }
    requires fits { total groups.remainder ≤ 4294967295 }
    requires before { groups.loans.before ≡ [] }
    requires after { groups.loans.after ≡ [] }
    requires cuts { groups.loans.cuts ≡ [] }
    ensures name { result.name ≡ groups.entry.loans.root }
    ensures value { result.value ≡ concat (map kept (split same_key groups.entry.remainder)) }
{
    calls_take_pieces(&groups);
    notes_keep_pieces(&groups);
    while let Some(group) = groups.next() {
        group[0].1 = total_of(group);
        groups.note_front(Ended::of(group));
    }
    groups.finish()
}

fn totalled(slice: &mut [Entry]) -> Ended<'_, Entry>
    requires sorted { NeverDescends nat_cmp (map (λ e. e.0) slice.old) }
    requires fits { total slice.old ≤ 4294967295 }
    ensures name { result.name ≡ slice.entry.ghost_name }
    ensures value { result.value ≡ concat (map kept (split same_key slice.old)) }
{
    ascending_is_grouped::<Entry, u32>();
    totals_kept(ExponentialGroupByKeyMut::new(slice, |e| e.0))
}

/// Keeps in the first element of each group of equal keys the sum of the group's counts. The other elements stay.
///
/// An entry is a key and a count. The slice has to ascend by the key, and all counts together have to fit 32 bits.
pub fn keep_totals(slice: &mut [Entry])
    requires sorted { NeverDescends nat_cmp (map (λ e. e.0) slice.old) }
    requires fits { total slice.old ≤ 4294967295 }
    ensures { slice.new ≡ concat (map kept (split same_key slice.old)) }
{
    resolve(slice, |part| totalled(part));
}
