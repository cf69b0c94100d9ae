//! Groups that go on over the blocks of a stream.
ghost use Rattle.std.specs.Prelude.{◌≡◌, Bool, None, map};
ghost use Rattle.std.specs.Fn.{ComputesKey, ComputesOnPairs};
ghost use Rattle.std.specs.Ordering.{on};
ghost use Rattle.slice_group_simd.specs.Classes.{by_class};
ghost use Rattle.sgb_numbers.specs.Numbers.{by_number};
ghost use Rattle.slice_group_simd.specs.Gives as numbers;
ghost use Rattle.sgb_split.specs.Calls.{ComputesBy, IsCallableBy};
ghost use Rattle.sgb_split.specs.Judges.{by_equality, by_key, by_predicate};
ghost use Rattle.sgb_split.specs.Split.{AreNeighbours};
ghost use Rattle.slice_group_stream.specs.Streams.{AsksAcross, AsksEnds, across, begins_at, begins_of};
ghost use Rattle.slice_group_stream.specs.Streams.{groups_in, kept_of, last_after};
ghost use Rattle.sgb_groups.specs.Gives.{groups_of};

use crate::asking::{begins_by, ends, groups_by, groups_by_key, key_of};
use crate::parts::Parts;
use sgb_linear_group::linear_group::{LinearGroup, LinearGroupBy, LinearGroupByKey};
use slice_group_simd::{ByteClasses, Lanes, LinearClassGroup, LinearNumberGroup};

/// A stream that comes in blocks, any of which may be empty, and whose groups may go on over several. It keeps the last
/// element that came, or its key, and nothing else.
///
/// Each block gives its parts, one for each group that has elements in it: whether a group begins with the part, or the
/// last group goes on, and the elements. What is made of a group over its parts is the caller's: a sum, a text, a list.
///
/// ```
/// let mut stream = StreamGroups::new();
/// for (begins, part) in stream.parts(&[1, 1, 2]) {
///     // (true, [1, 1]), (true, [2])
/// }
/// for (begins, part) in stream.parts(&[2, 3]) {
///     // (false, [2]), (true, [3])
/// }
/// ```
#[derive(Clone, Debug, Drop)]
pub struct StreamGroups<K> {
    kept: Option<K>,
}

impl<K> StreamGroups<K> {
    /// A stream of which no block has come yet.
    #[inline]
    pub fn new() -> StreamGroups<K>
        ensures { kept_of result ≡ None }
    {
        StreamGroups { kept: None }
    }
}

impl<K> Default for StreamGroups<K> {
    ghost is_default = { λ stream. kept_of stream ≡ None };

    #[inline]
    fn default() -> StreamGroups<K> {
        StreamGroups::new()
    }
}

impl<T: Copy> StreamGroups<T> {
    // The element before the block and the block's first, if there are both. The block has come then.
    #[inline]
    fn across(&mut self, block: &[T]) -> Option<(T, T)>
        ensures pair { result ≡ across (kept_of self.old) block.now }
        ensures kept { kept_of self.new ≡ last_after (kept_of self.old) block.now }
    {
        let (first, last) = ends(block)?;
        let before = self.kept.replace(*last)?;
        Some((before, *first))
    }

    /// The parts that the block has of the groups by a predicate. When the block comes, it is called on the last element
    /// before and the block's first; on neighbours in the block, as you take the parts. So over all blocks it is called as
    /// often as in one linear walk (`laws::streams_count`).
    ///
    /// The block has come then, whether or not its parts are taken.
    #[inline]
    pub fn parts_by<'a, P: FnMut(&T, &T) -> bool>(
        &mut self,
        block: &'a [T],
        mut predicate: P,
    ) -> Parts<LinearGroupBy<'a, T, P>>
        requires { P.IsAlwaysCallable predicate }
        ensures kept { kept_of self.new ≡ last_after (kept_of self.old) block.now }
        ensures remainder { (groups_of (groups_in result)).remainder ≡ block.now }
        ensures asks { AsksAcross P.FnMut (across (kept_of self.old) block.now) predicate (begins_of result)
            (groups_of (groups_in result)).judge.predicate }
        ensures callable { IsCallableBy AreNeighbours (by_predicate P.FnMut) (groups_of (groups_in result)) }
        ensures begins { (p : T → T → Bool) → ComputesOnPairs P.FnMut p predicate
            → begins_of result ≡ begins_at p (across (kept_of self.old) block.now) }
        ensures computes { (p : T → T → Bool) → ComputesOnPairs P.FnMut p predicate
            → ComputesBy AreNeighbours (by_predicate P.FnMut) (groups_of (groups_in result)) p }
    {
        let pair = self.across(block);
        let begins = begins_by(&mut predicate, pair);
        Parts {
            begins,
            groups: groups_by(block, predicate),
        }
    }
}

impl<T: Copy + PartialEq> StreamGroups<T> {
    /// The parts that the block has of the groups of equal elements, by `==` of neighbours. The last element before the
    /// block and the block's first are compared at once.
    #[inline]
    pub fn parts<'a>(&mut self, block: &'a [T]) -> Parts<LinearGroup<'a, T>>
        ensures kept { kept_of self.new ≡ last_after (kept_of self.old) block.now }
        ensures remainder { (groups_of (groups_in result)).remainder ≡ block.now }
        ensures begins { begins_of result ≡ begins_at T.eq (across (kept_of self.old) block.now) }
        ensures callable { IsCallableBy AreNeighbours (by_equality T.eq) (groups_of (groups_in result)) }
        ensures computes { ComputesBy AreNeighbours (by_equality T.eq) (groups_of (groups_in result)) T.eq }
    {
        let goes_on = self
            .across(block)
            .is_some_and(|(before, first)| before == first);
        Parts::new(!goes_on, LinearGroup::new(block))
    }
}

impl<T: Lanes + Copy> StreamGroups<T> {
    /// The parts of `parts`, of numbers, found by vectors. How many are compared is not counted.
    #[inline]
    pub fn number_parts<'a>(&mut self, block: &'a [T]) -> Parts<LinearNumberGroup<'a, T>>
        ensures kept { kept_of self.new ≡ last_after (kept_of self.old) block.now }
        ensures remainder { (numbers.groups_of (groups_in result)).remainder ≡ block.now }
        ensures begins { begins_of result ≡ begins_at T.eq (across (kept_of self.old) block.now) }
        ensures callable { IsCallableBy AreNeighbours (by_number T.eq) (numbers.groups_of (groups_in result)) }
        ensures computes { ComputesBy AreNeighbours (by_number T.eq) (numbers.groups_of (groups_in result)) T.eq }
    {
        let goes_on = self
            .across(block)
            .is_some_and(|(before, first)| before == first);
        Parts::new(!goes_on, LinearNumberGroup::new(block))
    }
}

impl StreamGroups<u8> {
    /// The parts that the block has of the groups of bytes of one class, found by vectors: of tokens.
    #[inline]
    pub fn class_parts<'a, C: ByteClasses>(
        &mut self,
        block: &'a [u8],
    ) -> Parts<LinearClassGroup<'a, C>>
        ensures kept { kept_of self.new ≡ last_after (kept_of self.old) block.now }
        ensures remainder { (numbers.groups_of (groups_in result)).remainder ≡ block.now }
        ensures begins { begins_of result ≡ begins_at (on C.class_of C.Class.eq) (across (kept_of self.old) block.now) }
        ensures callable { IsCallableBy AreNeighbours (by_class C.class_of C.Class.eq) (numbers.groups_of (groups_in result)) }
        ensures computes { ComputesBy AreNeighbours (by_class C.class_of C.Class.eq) (numbers.groups_of (groups_in result))
            (on C.class_of C.Class.eq) }
    {
        let goes_on = self
            .across(block)
            .is_some_and(|(before, first)| C::class(before) == C::class(first));
        Parts::new(!goes_on, LinearClassGroup::new(block))
    }
}

impl<K: PartialEq + Drop> StreamGroups<K> {
    /// The parts that the block has of the groups by a key. The stream keeps keys alone, so that elements need live no
    /// longer than their block.
    ///
    /// The key function is called on the first element of the block and on the last at once, and on both elements of
    /// each neighbouring pair as the parts are taken: in all twice on each element. The first of these keys says whether a
    /// group begins with the block, and the second one is kept.
    #[inline]
    pub fn parts_by_key<'a, T, F: FnMut(&T) -> K>(
        &mut self,
        block: &'a [T],
        mut key: F,
    ) -> Parts<LinearGroupByKey<'a, T, F, K>>
        requires { F.IsAlwaysCallable key }
        ensures remainder { (groups_of (groups_in result)).remainder ≡ block.now }
        ensures asks { AsksEnds F.FnMut K.eq block.now key (kept_of self.old) (begins_of result) (kept_of self.new)
            (groups_of (groups_in result)).judge.func }
        ensures callable { IsCallableBy AreNeighbours (by_key F.FnMut K.eq) (groups_of (groups_in result)) }
        ensures kept { (k : T → K) → ComputesKey F.FnMut k key
            → kept_of self.new ≡ last_after (kept_of self.old) (map k block.now) }
        ensures begins { (k : T → K) → ComputesKey F.FnMut k key
            → begins_of result ≡ begins_at K.eq (across (kept_of self.old) (map k block.now)) }
        ensures computes { (k : T → K) → ComputesKey F.FnMut k key
            → ComputesBy AreNeighbours (by_key F.FnMut K.eq) (groups_of (groups_in result)) (λ x y. K.eq (k x) (k y)) }
    {
        let begins = self.begins_by_key(block, &mut key);
        Parts {
            begins,
            groups: groups_by_key(block, key),
        }
    }

    // Whether a group begins with the block, whose last key is kept: asks for the key of its first element and of its
    // last.
    #[inline]
    fn begins_by_key<T, F: FnMut(&T) -> K>(&mut self, block: &[T], key: &mut F) -> bool
        requires { F.IsAlwaysCallable key.old }
        ensures asks { AsksEnds F.FnMut K.eq block.now key.old (kept_of self.old) result (kept_of self.new) key.new }
        ensures callable { F.IsAlwaysCallable key.new }
        ensures computes { (k : T → K) → ComputesKey F.FnMut k key.old → ComputesKey F.FnMut k key.new }
        ensures kept { (k : T → K) → ComputesKey F.FnMut k key.old
            → kept_of self.new ≡ last_after (kept_of self.old) (map k block.now) }
        ensures begins { (k : T → K) → ComputesKey F.FnMut k key.old
            → result ≡ begins_at K.eq (across (kept_of self.old) (map k block.now)) }
    {
        let Some((first, last)) = ends(block) else {
            return true;
        };
        let first_key = key_of(key, first);
        let last_key = key_of(key, last);
        match self.kept.replace(last_key) {
            Some(before) => before != first_key,
            None => true,
        }
    }
}
