//! Groups by a key, with their keys.
ghost use Rattle.std.specs.Prelude.{◌≡◌, ◌<◌, Bool, length, nat_eq, slice_get, Option, Some, IfSome};
ghost use Rattle.std.specs.Prelude.{if◌then◌else◌, option_map};
ghost use Rattle.std.specs.Iterator.{UpTo};
ghost use Rattle.std.specs.Iterator.SizeHint.{IsWithinCount};
ghost use Rattle.std.proofs.lemmas.Iterator.{YieldsList};
ghost use Rattle.sgb_split.specs.Split.{TakesPiece, from, split};
ghost use Rattle.sgb_split.specs.declared.end.End.{End};
ghost use Rattle.sgb_split.specs.declared.end.End.TheVariants.{Front, Back};
ghost use Rattle.slice_group_by.specs.Keyed.{GivesWithKey, groups_within, keyed, keys_to_come};
ghost use Rattle.slice_group_by.specs.declared.adapters.keyed.WithKeys.{WithKeys};

use crate::laws::queue::{GroupQueue, RemainderLen};
use std::iter::FusedIterator;

mod slices;
mod texts;

/// Groups by a key that can be asked for the key of a group: what `with_keys` takes.
///
/// ```
/// let mut groups = LinearGroupByKey::new(&[10, 11, 20], |x| *x / 10);
/// groups.first_key(&[20, 21].as_slice()); // 2
/// ```
pub trait Keyed: GroupQueue + RemainderLen {
    type Key;

    // The key function may be called on any element, in every state that its calls lead to.
    ghost key_callable: { Self → Type 0 };

    // It computes this key, and the groups are the pieces of what remains for equality of keys.
    ghost is_keyed: { Self → (Self.Element → Self.Key) → Type 0 };

    // It is not empty, and of a text it is UTF-8: so are the groups that calls give.
    ghost has_key: { Self.Item → Type 0 };

    // Whether two keys are equal.
    ghost same_key: { Self.Key → Self.Key → Bool };

    // The groups before, a group, the key that one call of the key function gives of its first element, and the groups
    // after.
    ghost calls_key: { Self → Self.Item → Self.Key → Self → Type 0 };

    /// The key of a group: one call of the key function, on its first element.
    fn first_key(&mut self, group: &Self::Item) -> Self::Key
        requires has_key { has_key group.now }
        requires callable { key_callable self.old }
        ensures calls { calls_key self.old group.now result self.new }
        ensures callable { key_callable self.new };

    // So groups may be asked for, and then the key function may be called still.
    ghost may_pop: { (q : Self) → key_callable q → Self.can_pop q };

    // A group takes some of what remains.
    ghost fewer: { (e : End) (q : Self) (group : Self.Item) (t : Self) → Self.gives e q (Some group) t
        → length (Self.left t) < length (Self.left q) };

    ghost pop_has_key: { (e : End) (q : Self) (group : Self.Item) (t : Self) → Self.gives e q (Some group) t
        → has_key group };

    ghost pop_callable: { (e : End) (q : Self) (group : Option Self.Item) (t : Self) → Self.gives e q group t
        → key_callable q → key_callable t };

    // A call of the key function takes no element off.
    ghost call_leaves: { (q : Self) (group : Self.Item) (k : Self.Key) (t : Self) → calls_key q group k t
        → (Self.left t ≡ Self.left q) × (Self.remainder t ≡ Self.remainder q) };

    // Of a function that computes a key, groups are pieces, and the key of one is that of its first element.
    ghost pop_keyed: { (e : End) (q : Self) (group : Option Self.Item) (t : Self) (key : Self.Element → Self.Key)
        → Self.gives e q group t → is_keyed q key
        → TakesPiece (λ x y. same_key (key x) (key y)) e (Self.remainder q) (option_map Self.shows group) (Self.remainder t)
        × is_keyed t key };

    ghost call_keyed: { (q : Self) (group : Self.Item) (k : Self.Key) (t : Self) (key : Self.Element → Self.Key)
        → calls_key q group k t → is_keyed q key
        → ((x : Self.Element) × (slice_get (Self.shows group) 0 ≡ Some x) × (k ≡ key x)) × is_keyed t key };
}

/// Groups by a key, each with its key: what `with_keys` gives.
#[derive(Clone, Debug, Drop)]
#[must_use = "iterator adaptors are lazy and do nothing unless consumed"]
pub struct WithKeys<Q> {
    pub(crate) groups: Q,
}

/// What a loop or an adapter sees of groups with keys, if the key function computes a key: the pieces of the split in
/// order, from the back in reverse, each with the key of its first element. `pieces_have_keys` says that the keys of all
/// its elements equal it.
///
/// Groups of a slice are `is_keyed` if the function, as it is now, computes the key (`ComputesKey`) and what remains fits,
/// which is what the clause `settled` of `new` takes. For texts `ComputesCharKey` is enough.
pub fn sees_keys<Q: Keyed>(_groups: &WithKeys<Q>)
    ensures { (key : Q.Element → Q.Key) (e : End) (s : WithKeys Q) → Q.is_keyed (groups_within s) key
        → YieldsList (GivesWithKey Q.gives Q.calls_key e) (λ x. (x.0, Q.shows x.1)) s
        (keyed key (from e (split (λ x y. Q.same_key (key x) (key y)) (Q.remainder (groups_within s))))) }
{}

impl<Q: Keyed + Drop> Iterator for WithKeys<Q> {
    type Item = (Q::Key, Q::Item);

    ghost use Rattle.slice_group_by.specs.Keyed.{GivesWithKey, keys_to_come};

    ghost can_next = { λ s. Q.key_callable s.groups };

    ghost next_gives = { GivesWithKey Q.gives Q.calls_key Front };

    ghost remaining = { keys_to_come Q.left };

    /// The first group of the remainder, and its key, or `None` where nothing remains.
    #[inline]
    fn next(&mut self) -> Option<(Q::Key, Q::Item)> {
        let group = self.groups.pop_front()?;
        let key = self.groups.first_key(&group);
        Some((key, group))
    }

    /// No groups where nothing remains, and else at least one and at most as many as elements or bytes remain.
    #[inline]
    fn size_hint(&self) -> (usize, Option<usize>)
        ensures value { result ≡ (if nat_eq (length (Q.left (groups_within self.now))) 0 then (0, Some 0)
            else (1, Some (length (Q.left (groups_within self.now))))) }
        ensures lower { IsWithinCount result.0 (keys_to_come Q.left self.now) }
        ensures upper { IfSome result.1 (UpTo (keys_to_come Q.left self.now)) }
    {
        let len = self.groups.remainder_len();
        (len.min(1), Some(len))
    }
}

impl<Q: Keyed + Drop> DoubleEndedIterator for WithKeys<Q> {
    ghost use Rattle.slice_group_by.specs.Keyed.{GivesWithKey};

    ghost can_next_back = { λ s. Q.key_callable s.groups };

    ghost next_back_gives = { GivesWithKey Q.gives Q.calls_key Back };

    /// The last group of the remainder, and its key, or `None` where nothing remains.
    #[inline]
    fn next_back(&mut self) -> Option<(Q::Key, Q::Item)> {
        let group = self.groups.pop_back()?;
        let key = self.groups.first_key(&group);
        Some((key, group))
    }
}

impl<Q: Keyed + Drop> FusedIterator for WithKeys<Q> {}
