//! The adapters as methods.
ghost use Rattle.std.specs.Prelude.{◌≡◌};
ghost use Rattle.slice_group_by.specs.Offsets.{groups_under};
ghost use Rattle.slice_group_by.specs.Keyed.{groups_within};

use crate::adapters::keyed::WithKeys;
use crate::adapters::offsets::WithOffsets;

/// Adapters of groups, as methods. What they give are iterators from both ends over the groups that are still to come.
pub trait GroupAdapters: Sized {
    /// Each group with the offset at which it begins in the input: its first element of a slice, its first byte of a text. That the
    /// offset and the length of the group add up without overflow is known in each turn of a loop.
    ///
    /// ```
    /// for (offset, group) in LinearGroup::new(&[1, 1, 1, 3, 3]).with_offsets() {
    ///     // (0, [1, 1, 1]), and then (3, [3, 3])
    /// }
    /// ```
    #[inline]
    fn with_offsets(self) -> WithOffsets<Self>
        ensures { groups_under result ≡ self }
    {
        WithOffsets { groups: self }
    }

    /// Each group with the key of its first element; after `with_offsets`, each place and group with it.
    ///
    /// Each call asks what a call on the groups asks, and then calls the key function once more, on the first element of
    /// the group. The key function must be callable on every element, in whatever state earlier calls left it; a closure
    /// whose body may run on all elements needs no proof. The key of a class group is its class, with no call.
    ///
    /// After writing, nothing is known about what the input holds. To learn it, keep the groups themselves: ask for the key by
    /// `key_of(&group[0])`, or by `first_key_of(group)` for a text, and then take note of the group.
    ///
    /// ```
    /// for (key, group) in LinearGroupByKey::new(&[10, 11, 20, 21, 22], |x| *x / 10).with_keys() {
    ///     // (1, [10, 11]), and then (2, [20, 21, 22])
    /// }
    /// ```
    #[inline]
    fn with_keys(self) -> WithKeys<Self>
        ensures { groups_within result ≡ self }
    {
        WithKeys { groups: self }
    }
}

// For any type: a bound here would be proved at each use of an adapter. A type that gives no groups is refused where the adapter
// is used as an iterator.
impl<Q> GroupAdapters for Q {}
