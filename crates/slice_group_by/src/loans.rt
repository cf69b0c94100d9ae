//! What a slice ends as when parts of it were handed out to be written. Nothing here takes a byte.
//!
//! An iterator for writing says in `loans` which groups are out. `Ended::of` gives a group up, `note_front` and
//! `note_back` of the iterator take note of it, `finish` answers what the whole input ends as, and `resolve` makes that a
//! plain fact about the slice. `resolve_and_return` gives an answer back too, and `resolve_in` takes what lends its
//! elements: a vector, an array, or a type of yours.
ghost use Rattle.std.specs.Prelude.{◌≡◌, List, length};
ghost use Rattle.std.specs.Borrow.{MutBor};
ghost use Rattle.sgb_loans.specs.declared.loans.Ended.{Ended as Token};

use crate::traits::holders::AsMutSlice;
pub use sgb_loans::loans::{Ended, Loans};
pub use sgb_loans::resolve::{resolve, resolve_and_return};

/// Lends `f` the elements of `holder`: `resolve` for a vector, an array, or whatever lends its elements. They are then what
/// the token says that `f` answers, as many as before. `elements` says it of a holder that keeps a list of the old length
/// whole, as vectors do by the lemma `with_items_is`.
///
/// ```
/// pub fn reverse_groups_of(vec: &mut Vec<u8>) {
///     resolve_in(vec, |part| reversed(part)); // `reversed` answers a token whose value has each group reversed
/// }
/// ```
pub fn resolve_in<T, S: AsMutSlice<T>, F: FnOnce(&mut [T]) -> Ended<'_, T>>(holder: &mut S, f: F)
    requires callable { (p : MutBor (List T)) → p.now ≡ S.AsMutSlice.elements holder.old → F.pre f p }
    requires names { (p : MutBor (List T)) (l : Token T) → p.now ≡ S.AsMutSlice.elements holder.old → F.post f p l
        → l.name ≡ p.ghost_name }
    ensures ends { (p : MutBor (List T)) × (l : Token T) × (p.now ≡ S.AsMutSlice.elements holder.old) × F.post f p l
        × (holder.new ≡ S.AsMutSlice.with_elements holder.old l.value) }
    ensures len { (xs : List T) × (holder.new ≡ S.AsMutSlice.with_elements holder.old xs)
        × (length xs ≡ length (S.AsMutSlice.elements holder.old)) }
    ensures elements { ((xs : List T) → length xs ≡ length (S.AsMutSlice.elements holder.old)
        → S.AsMutSlice.elements (S.AsMutSlice.with_elements holder.old xs) ≡ xs)
        → (p : MutBor (List T)) × (l : Token T) × (p.now ≡ S.AsMutSlice.elements holder.old) × F.post f p l
        × (S.AsMutSlice.elements holder.new ≡ l.value) }
{
    resolve(holder.as_mut_slice(), f)
}
