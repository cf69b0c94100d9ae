//! Groups of equal numbers, and of bytes of one class, found by vectors: the groups that `slice_group_by` finds by `==`, or by
//! the class as a key, from either end.
//!
//! Sixty-four neighbouring pairs are compared at a time, and what that told is kept for the calls to come.
//!
//! ```
//! let mut groups = LinearNumberGroup::new(&[1, 1, 1, 3, 3, 2, 2, 2]);
//! groups.next();      // Some([1, 1, 1])
//! groups.next_back(); // Some([2, 2, 2])
//! let mut tokens = b"port 8080".linear_class_group::<AsciiClasses>();
//! tokens.next();      // Some(b"port")
//! count_classes(None, b"port 8080").digits; // 1
//! ```
//!
//! `LinearNumberGroup` takes integers and floats, `LinearClassGroup` bytes by `AsciiClasses` or classes of your own
//! (`ByteClasses`). `count_classes` and `ClassCounter` count the groups of each class with no walk.
//!
//! The groups are queues (`GroupQueue`) of `slice_group_by`, so that its adapters, `walk` and its laws take them. For groups of
//! a stream take `slice_group_stream`.
//!
//! Version 1.1.0.
#![tactic(auto)]

mod ascii_classes;
mod blocks;
mod by_class;
mod by_number;
mod byte_classes;
mod class_counter;
mod class_counts;
mod fills;
pub mod laws;
mod mask_groups;
mod methods;
mod queue;

pub use ascii_classes::{AsciiClass, AsciiClasses};
pub use by_class::LinearClassGroup;
pub use by_number::LinearNumberGroup;
pub use byte_classes::ByteClasses;
pub use class_counter::ClassCounter;
pub use class_counts::{ClassCounts, count_classes};
pub use methods::{GroupByClass, GroupByNumber};
pub use sgb_numbers::lanes::Lanes;
