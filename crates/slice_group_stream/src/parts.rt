//! The groups of a block, as parts of the groups of a stream.
ghost use Rattle.std.specs.Prelude.{◌≡◌};
ghost use Rattle.sgb_groups.specs.Gives.{groups_of};
ghost use Rattle.slice_group_stream.specs.Streams.{begins_of, groups_in};

use sgb_linear_group::linear_group::{LinearGroupBy, LinearGroupByKey};
use std::iter::FusedIterator;

/// The groups of a block, each with whether a group of the stream begins with it, or the last one goes on. Only the
/// first can go on.
#[derive(Clone, Debug, Drop)]
#[must_use = "iterators are lazy and do nothing unless consumed"]
pub struct Parts<I> {
    pub(crate) begins: bool,
    pub(crate) groups: I,
}

impl<I: Iterator> Iterator for Parts<I> {
    type Item = (bool, I::Item);

    ghost use Rattle.slice_group_stream.specs.Streams.{GivesBlockPart};

    ghost can_next = { λ s. I.can_next s.groups };

    ghost next_gives = { GivesBlockPart I.next_gives };

    ghost remaining = { λ s. I.remaining s.groups };

    /// The next part, or `None` at the end of the block.
    #[inline]
    fn next(&mut self) -> Option<(bool, I::Item)> {
        let part = self.groups.next()?;
        let begins = self.begins;
        self.begins = true;
        Some((begins, part))
    }

    #[inline]
    fn size_hint(&self) -> (usize, Option<usize>) {
        self.groups.size_hint()
    }
}

impl<I: FusedIterator> FusedIterator for Parts<I> {}

impl<I> Parts<I> {
    /// The groups of a block as parts: for a caller who knows by itself whether a group begins with the first.
    #[inline]
    pub fn new(begins: bool, groups: I) -> Parts<I>
        ensures begins { begins_of result ≡ begins }
        ensures groups { groups_in result ≡ groups }
    {
        Parts { begins, groups }
    }
}

impl<'a, T, P> Parts<LinearGroupBy<'a, T, P>> {
    /// The predicate, as its calls have left it: generic code that was handed one passes it on to the next block.
    /// May change.
    #[inline]
    pub fn into_predicate(self) -> P
        ensures { result ≡ (groups_of (groups_in self.entry)).judge.predicate }
    {
        let Parts { groups, begins: _ } = self;
        groups.into_judge().predicate
    }
}

impl<'a, T, F, K> Parts<LinearGroupByKey<'a, T, F, K>> {
    /// The key function, as its calls have left it.
    /// May change.
    #[inline]
    pub fn into_key(self) -> F
        ensures { result ≡ (groups_of (groups_in self.entry)).judge.func }
    {
        let Parts { groups, begins: _ } = self;
        groups.into_judge().func
    }
}
