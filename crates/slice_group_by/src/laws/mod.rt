//! Laws for the proofs of callers. Each is a function that does nothing: its contract is the law. The files have what is
//! proved from them too, which the root gives: `walk`, `rank_groups`, `is_sorted_for_groups`, `Plan` and `refute`.
//!
//! A function whose contract rests on a law calls it, and then its proof may cite it. Where a law takes a queue, that only
//! names the type, which may hold a closure: the law is over all of its states.

// Laws alone.

// What calls give: one, a list of them, all that a loop or an adapter makes.
pub(crate) mod calls;
// How many questions calls ask, and what they do to a counter.
pub(crate) mod counts;
// The families beside each other, and beside `chunk_by`.
pub(crate) mod families;
// What the pieces of a slice are: copies, filters, keys, lengths.
pub(crate) mod pieces;
// Texts as bytes and as characters.
pub(crate) mod texts;
// What notes of groups that were written keep.
pub(crate) mod writing;

// Traits: `GroupQueue`, its kin, and `walk`; the types of this library as queues; what they say beyond one, on which laws rest.
pub(crate) mod judged;
pub(crate) mod queue;
pub(crate) mod queues;

// Programs, each with its law: `Plan` and `refute`, `rank_groups`, `is_sorted_for_groups`.
pub(crate) mod plans;
pub(crate) mod ranks;
pub(crate) mod sorted;

pub use crate::adapters::dedup::sees_counts;
pub use crate::adapters::keyed::sees_keys;
pub use crate::adapters::offsets::{groups_stand, sees_keys_at, texts_stand};
pub use crate::join::outer::sees_keys_of_both;
pub use crate::join::{joins_may_go_on, pairs_count, pairs_match, sees_pairs};
pub use calls::{calls_may_go_on, calls_take_pieces, groups_join, groups_still_come, sees_pieces};
pub use counts::{
    calls_ask, each_pair_asked_once, linear_counts, mapped_calls_ask, questions_count, search_asks,
    search_counts,
};
pub use families::{chunk_by_agrees, families_agree, groups_end_locally};
pub use judged::{Judged, Lends, OfText};
pub use pieces::{
    bests_are_greatest, columns_split, equal_pieces_are_copies, passed_pieces_join, pieces_add_up,
    pieces_by_key, pieces_have_keys, queries_by_key,
};
pub use plans::right_plans_ask;
pub use queue::{RemainderLen, SliceQueue, SliceQueueMut};
pub use sgb_groups::shards::sees_shards;
pub use sgb_search::laws::{
    ascending_is_grouped, ascending_is_searchable, range_places, searchable_is_partitioned,
};
pub use sgb_split::laws::{
    always_callable, always_callable_char_key, always_callable_chars, always_callable_key,
    always_callable_on_elements, always_computes, callable_on_elements, callable_on_pairs,
    callable_unchanged, callable_unchanged_char_key, callable_unchanged_on_pairs,
    computes_on_elements, computes_on_pairs, equality_judges, one_split, pairs_are_elements,
    splits_join,
};
pub use sorted::sorts_ascend;
pub use texts::{characters_fit, texts_join};
pub use writing::notes_keep_pieces;
