//! Counts the groups of each ASCII class in bytes that come in blocks.
ghost use Rattle.std.specs.Prelude.{◌≡◌, ℕ, ◌+◌, ◌-◌, ◌^◌, List, [], ◌++◌, None, min};
ghost use Rattle.slice_group_simd.specs.declared.ascii_classes.AsciiClass.{AsciiClass};
ghost use Rattle.slice_group_simd.specs.Counted.{class_count, count_of};
ghost use Rattle.slice_group_simd.specs.Counters.{HasTaken};

use crate::ascii_classes::AsciiClass;
use crate::class_counts::{ClassCounts, class_after, class_counts_add_up, count_classes};

/// How many groups of each class some bytes have, while the bytes come in blocks: a group may go on over several.
///
/// ```
/// let mut counter = ClassCounter::new();
/// counter.push(b"po");
/// counter.push(b"rt 8080;");
/// let counts = counter.counts(); // letters: 1, digits: 1, spaces: 1, others: 1
/// ```
#[derive(Clone, Copy, Debug)]
pub struct ClassCounter {
    counts: ClassCounts,
    last: Option<AsciiClass>,
}

impl ClassCounter {
    /// No byte has come yet.
    pub fn new() -> ClassCounter
        ensures { HasTaken result [] }
    {
        ClassCounter {
            counts: count_classes(None, &[]),
            last: None,
        }
    }

    /// Takes the next block, by `count_classes`: 64 bytes at a time.
    #[inline]
    pub fn push(&mut self, block: &[u8])
        ensures { (bytes : List ℕ) → HasTaken self.old bytes → HasTaken self.new (bytes ++ block.now) }
    {
        class_counts_add_up();
        self.counts = self.counts.saturating_add(count_classes(self.last, block));
        self.last = class_after(self.last, block);
    }

    /// How many groups of each class the bytes have that have come: at most `usize::MAX`, even if there are more.
    #[inline]
    pub fn counts(&self) -> ClassCounts
        ensures { (bytes : List ℕ) (class : AsciiClass) → HasTaken self.now bytes
            → count_of class result ≡ min (class_count class None bytes) (2 ^ 64 - 1) }
    {
        self.counts
    }
}

impl Default for ClassCounter {
    ghost is_default = { λ counter. HasTaken counter [] };

    fn default() -> ClassCounter {
        ClassCounter::new()
    }
}
