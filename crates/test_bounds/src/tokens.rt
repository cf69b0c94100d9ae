//! What a slice ends as.
ghost use Rattle.std.specs.Prelude.{◌≡◌, List, [], ◌∷◌, drop};
ghost use Rattle.std.specs.Borrow.{MutBor};
ghost use Rattle.slice_group_by.specs.End.TheVariants.{Back, Front};
ghost use Rattle.slice_group_by.specs.declared.loans.Ended.{Ended as Token};

use slice_group_by::loans::{Ended, resolve, resolve_and_return, resolve_in};
use slice_group_by::{AsMutSlice, LinearGroupByKeyMut, LinearGroupMut, LinearStrGroupByKeyMut};

// A function that may be called once is enough.

pub fn resolved<T, F: FnOnce(&mut [T]) -> Ended<'_, T>>(slice: &mut [T], f: F)
    requires callable { (p : MutBor (List T)) → p.now ≡ slice.old → F.pre f p }
    requires names { (p : MutBor (List T)) (l : Token T) → p.now ≡ slice.old → F.post f p l → l.name ≡ p.ghost_name }
{
    resolve(slice, f);
}

pub fn resolved_and_returned<T, R, F: FnOnce(&mut [T]) -> (Ended<'_, T>, R)>(
    slice: &mut [T],
    f: F,
) -> R
    requires callable { (p : MutBor (List T)) → p.now ≡ slice.old → F.pre f p }
    requires names { (p : MutBor (List T)) (l : Token T) (r : R) → p.now ≡ slice.old → F.post f p (l, r)
        → l.name ≡ p.ghost_name }
{
    resolve_and_return(slice, f)
}

pub fn resolved_in<T, S: AsMutSlice<T>, F: FnOnce(&mut [T]) -> Ended<'_, T>>(holder: &mut S, f: F)
    requires callable { (p : MutBor (List T)) → p.now ≡ S.AsMutSlice.elements holder.old → F.pre f p }
    requires names { (p : MutBor (List T)) (l : Token T) → p.now ≡ S.AsMutSlice.elements holder.old → F.post f p l
        → l.name ≡ p.ghost_name }
{
    resolve_in(holder, f);
}

// The first group and the last one are noted, of elements that have no more than `==`.
pub fn noted<T: PartialEq>(slice: &mut [T]) -> Ended<'_, T> {
    let mut groups = LinearGroupMut::new(slice);
    if let Some(group) = groups.next() {
        groups.note_front(Ended::of(group));
    }
    if let Some(group) = groups.next_back() {
        groups.note_back(Ended::of(group));
    }
    groups.finish()
}

// What is noted and given back asks nothing of a key.

pub fn noted_in_front<T, F: Drop, K>(
    groups: &mut LinearGroupByKeyMut<'_, T, F, K>,
    group: Ended<'_, T>,
)
    requires { groups.old.loans.cuts ≡ (Front, group.name) ∷ drop 1 groups.old.loans.cuts }
{
    groups.note_front(group);
}

pub fn noted_behind<F: Drop, K>(groups: &mut LinearStrGroupByKeyMut<'_, F, K>, group: Ended<'_, u8>)
    requires { groups.old.loans.cuts ≡ (Back, group.name) ∷ drop 1 groups.old.loans.cuts }
{
    groups.note_back(group);
}

pub fn finished<'a, F: Drop, K>(groups: LinearStrGroupByKeyMut<'a, F, K>) -> Ended<'a, u8>
    requires { groups.loans.cuts ≡ [] }
{
    groups.finish()
}
