//! How many groups of each ASCII class some bytes have, with no walk along them.
ghost use Rattle.std.specs.Prelude.{◌≡◌, ℕ, ◌+◌, ◌-◌, ◌^◌, ◌<◌, ◌≤◌, List, ◌∷◌, ◌++◌, length, slice_index_or, min, Option, Some};
ghost use Rattle.std.specs.Simd.Lanes.{mask_l, chunk};
ghost use Rattle.slice_group_simd.specs.AsciiBytes.{ascii_class};
ghost use Rattle.sgb_numbers.specs.Numbers.{boundaries};
ghost use Rattle.slice_group_simd.specs.declared.ascii_classes.AsciiClass.{AsciiClass};
ghost use Rattle.slice_group_simd.specs.Counted.{class_count, class_after, count_of, same_class};
ghost use Rattle.slice_group_simd.specs.Starts.{begins, starts};

use crate::ascii_classes::{AsciiClass, AsciiClasses};
use crate::blocks::{block, unlike_block};
use crate::byte_classes::{ByteClasses, ClassJudge};

/// A number of groups of each class.
#[derive(Clone, Copy, Debug, PartialEq, Eq)]
#[must_use]
pub struct ClassCounts {
    pub letters: usize,
    pub digits: usize,
    pub spaces: usize,
    pub others: usize,
}

/// How many groups of each class begin in the bytes. `before` is the class of the byte before them, if there is one: a
/// first group of that class goes on from there, and is not counted. So the counts of the blocks of a stream add up.
///
/// It compares 64 bytes at a time, and its time depends on nothing but their number.
///
/// ```
/// let counts = count_classes(None, b"port 8080;");
/// // letters: 1, digits: 1, spaces: 1, others: 1
/// let counts = count_classes(Some(AsciiClass::Letter), b"port 8080;");
/// // letters: 0, digits: 1, spaces: 1, others: 1
/// ```
pub fn count_classes(before: Option<AsciiClass>, bytes: &[u8]) -> ClassCounts
    ensures { (class : AsciiClass) → count_of class result ≡ class_count class before bytes.now }
{
    let none = ClassCounts {
        letters: 0,
        digits: 0,
        spaces: 0,
        others: 0,
    };
    if bytes.is_empty() {
        return none;
    }
    let mut counts = none.with_byte(before, AsciiClasses::class(bytes[0]));
    let mut at = 1;
    while 64 <= bytes.len() - at {
        counts = counts.with_block(bytes, at);
        at += 64;
    }
    while at < bytes.len() {
        let last = AsciiClasses::class(bytes[at - 1]);
        counts = counts.with_byte(Some(last), AsciiClasses::class(bytes[at]));
        at += 1;
    }
    counts
}

/// The class of the last byte, or `before` where there is none: what `count_classes` takes for the bytes that follow.
#[inline]
pub fn class_after(before: Option<AsciiClass>, bytes: &[u8]) -> Option<AsciiClass>
    ensures { result ≡ class_after before bytes.now }
{
    if bytes.is_empty() {
        return before;
    }
    Some(AsciiClasses::class(bytes[bytes.len() - 1]))
}

/// How counts of classes go along the bytes.
///
/// - `parts`: the counts of two parts add up to those of the whole. The second part is counted after the class at which the first
///   one ends.
/// - `step`: a byte more in front counts one where it begins a group of the class.
/// - `most`: there are no more groups than bytes.
/// - `after`: the class after two parts is that after the second, counted after the first.
pub fn class_counts_add_up()
    ensures parts { (class : AsciiClass) (before : Option AsciiClass) (xs ys : List ℕ)
        → class_count class before (xs ++ ys)
        ≡ class_count class before xs + class_count class (class_after before xs) ys }
    ensures step { (class : AsciiClass) (before : Option AsciiClass) (b : ℕ) (bs : List ℕ)
        → class_count class before (b ∷ bs)
        ≡ begins class before (ascii_class b) + class_count class (Some (ascii_class b)) bs }
    ensures most { (class : AsciiClass) (before : Option AsciiClass) (bs : List ℕ) → class_count class before bs ≤ length bs }
    ensures after { (before : Option AsciiClass) (xs ys : List ℕ)
        → class_after before (xs ++ ys) ≡ class_after (class_after before xs) ys }
{}

impl ClassCounts {
    /// The sums of the counts of each class, at most `usize::MAX`.
    #[inline]
    pub(crate) fn saturating_add(self, more: ClassCounts) -> ClassCounts
        ensures { (k : AsciiClass) → count_of k result ≡ min (count_of k self + count_of k more) (2 ^ 64 - 1) }
    {
        ClassCounts {
            letters: self.letters.saturating_add(more.letters),
            digits: self.digits.saturating_add(more.digits),
            spaces: self.spaces.saturating_add(more.spaces),
            others: self.others.saturating_add(more.others),
        }
    }

    /// With a byte of the class `class` more, after one of the class `before`.
    #[inline]
    fn with_byte(self, before: Option<AsciiClass>, class: AsciiClass) -> ClassCounts
        requires { (k : AsciiClass) → count_of k self + 1 < 2 ^ 64 }
        ensures { (k : AsciiClass) → count_of k result ≡ count_of k self + begins k before class }
    {
        if before == Some(class) {
            return self;
        }
        let mut counts = self;
        match class {
            AsciiClass::Letter => counts.letters += 1,
            AsciiClass::Digit => counts.digits += 1,
            AsciiClass::Space => counts.spaces += 1,
            AsciiClass::Other => counts.others += 1,
        }
        counts
    }

    /// With the 64 bytes from the place `at` on.
    #[inline]
    fn with_block(self, bytes: &[u8], at: usize) -> ClassCounts
        requires some { 0 < at }
        requires room { at + 64 ≤ length bytes.now }
        requires few { (k : AsciiClass) → count_of k self ≤ at }
        ensures { (k : AsciiClass) → count_of k result
            ≡ count_of k self
            + starts k (Some (ascii_class (slice_index_or bytes.now (at - 1) 0))) (chunk at 64 bytes.now) }
    {
        let cuts = block::<u8, ClassJudge<AsciiClasses>>(bytes, at - 1);
        ClassCounts {
            letters: self.letters + begun(cuts, b'a', bytes, at),
            digits: self.digits + begun(cuts, b'0', bytes, at),
            spaces: self.spaces + begun(cuts, b' ', bytes, at),
            others: self.others + begun(cuts, 0, bytes, at),
        }
    }
}

/// How many groups of the class of `byte` begin in the 64 bytes from the place `at` on, by the mask of where groups begin.
#[inline(always)]
fn begun(cuts: u64, byte: u8, bytes: &[u8], at: usize) -> usize
    requires some { 0 < at }
    requires room { at + 64 ≤ length bytes.now }
    requires mask { cuts ≡ mask_l (chunk (at - 1) 64 (boundaries same_class bytes.now)) }
    ensures count { result
        ≡ starts (ascii_class byte) (Some (ascii_class (slice_index_or bytes.now (at - 1) 0))) (chunk at 64 bytes.now) }
    ensures few { result ≤ 64 }
{
    let others = cuts & unlike_block::<u8, ClassJudge<AsciiClasses>>(&byte, bytes, at);
    (cuts.count_ones() - others.count_ones()) as usize
}
