//! Groups of neighbouring elements of a slice, without copying, from either end.
//!
//! A group ends where two neighbouring elements do not belong together. The groups of a slice are nonempty, and cover it.
//! If the closure depends only on its arguments, linear iterators give the pieces of the one `split`, the same from the
//! front and from the back. Binary and exponential ones search for the end of a group, and need a slice that is grouped for
//! that, as a sorted one is for `==`.
//!
//! ```
//! let mut groups = LinearGroup::new(&[1, 1, 1, 3, 3, 2, 2, 2]);
//! groups.next();      // Some([1, 1, 1])
//! groups.next_back(); // Some([2, 2, 2])
//! groups.next();      // Some([3, 3])
//! groups.next_back(); // None
//! ```
//!
//! Which to take:
//!
//! - `LinearGroup`: any slice, or short groups;
//! - `ExponentialGroup`: a sorted slice with long groups;
//! - `BinaryGroup`: a sorted slice with few groups, of very different lengths;
//! - `LinearStrGroup`: a text;
//! - `MergeJoin`: two sorted slices, for the pairs of groups with equal keys;
//! - `exponential_search`, `exponential_partition_point`, `exponential_equal_places`: a sorted slice, and what is sought;
//! - `boundary` of groups: a slice to cut between two of them; `shards`: into parts for threads;
//! - `partition_best_by`: to keep the first or the best element of each group, in place.
//!
//! Types come as `..By` (a predicate), `..ByKey` (a key function) and `..Mut` (for writing) too, and as methods of slices,
//! arrays, vectors and texts (`GroupBy`, `GroupByMut`, `StrGroupBy`, `StrGroupByMut`). `adapters` gives each group its
//! place, its key or its length.
//!
//! For proofs: `laws` has what yours cite, and `loans` what a slice ends as while it is written. `walk` makes any list of calls
//! from both `End`s of a `GroupQueue`. `is_sorted_for_groups` tests whether a slice is sorted, `rank_groups` replaces each
//! element by the number of its group, and `refute` finds where a `Plan` of few questions is wrong.
//!
//! Beside this library: `slice_merge_join` joins two sorted slices by a comparator, `slice_group_simd` finds groups of
//! numbers and of bytes by class with vectors, and `slice_group_stream` has groups of a stream that comes in blocks.
//!
//! Version 1.1.0.
#![tactic(auto)]

pub mod adapters;
mod join;
pub mod laws;
pub mod loans;
mod traits;

pub use adapters::dedup::dedup_with_count;
pub use adapters::methods::GroupAdapters;
pub use join::MergeJoin;
pub use join::outer::OuterJoin;
pub use laws::plans::{Plan, refute};
pub use laws::queue::{End, GroupQueue, walk};
pub use laws::ranks::rank_groups;
pub use laws::sorted::is_sorted_for_groups;
pub use sgb_binary_group::binary_group::{
    BinaryGroup, BinaryGroupBy, BinaryGroupByKey, BinaryGroupByKeyMut, BinaryGroupByMut,
    BinaryGroupMut,
};
pub use sgb_exponential_group::exponential_group::{
    ExponentialGroup, ExponentialGroupBy, ExponentialGroupByKey, ExponentialGroupByKeyMut,
    ExponentialGroupByMut, ExponentialGroupMut,
};
pub use sgb_groups::shards::Shards;
pub use sgb_linear_group::best::{partition_best_by, partition_best_by_key};
pub use sgb_linear_group::linear_group::{
    LinearGroup, LinearGroupBy, LinearGroupByKey, LinearGroupByKeyMut, LinearGroupByMut,
    LinearGroupMut,
};
pub use sgb_linear_str_group::by_equality::{LinearStrGroup, LinearStrGroupMut};
pub use sgb_linear_str_group::by_key::{LinearStrGroupByKey, LinearStrGroupByKeyMut};
pub use sgb_linear_str_group::by_predicate::{LinearStrGroupBy, LinearStrGroupByMut};
pub use sgb_search::equal_places::{
    exponential_equal_places, exponential_equal_places_by, exponential_equal_places_by_key,
    exponential_equal_places_by_ref,
};
pub use sgb_search::partition::exponential_partition_point;
pub use sgb_search::search::{
    exponential_search, exponential_search_by, exponential_search_by_key,
    exponential_search_by_key_ref, exponential_search_by_ref,
};
pub use traits::group_by::GroupBy;
pub use traits::group_by_mut::GroupByMut;
pub use traits::holders::{AsMutSlice, Elements};
pub use traits::str_group_by::{StrGroupBy, StrGroupByMut};
