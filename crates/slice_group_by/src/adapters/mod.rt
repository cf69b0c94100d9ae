//! Adapters of groups: each with its offset, each with its key, or the length and the first element of each.

pub(crate) mod dedup;
pub(crate) mod keyed;
pub(crate) mod methods;
pub(crate) mod offsets;

pub use dedup::DedupWithCount;
pub use keyed::{Keyed, WithKeys};
pub use offsets::{Offsets, WithOffsets};
