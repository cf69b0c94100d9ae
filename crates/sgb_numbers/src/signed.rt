//! What is known of signed numbers that were read: that they fit their type.
ghost use Rattle.std.specs.Prelude.{ℕ, ◌<◌, ◌≤◌, length, slice_index_or};
ghost use Rattle.std.specs.Int.{w8, w16, w32, w64};
ghost use Rattle.std.specs.Int.RustNames.{FitsSigned};

/// A signed number. A vector holds its bits, which tell it where it fits its type: and that is known of what was read.
pub(crate) trait Signed: PartialEq {
    ghost fits: { Self → Type 0 };

    /// Reads the number, for the proof alone: the prover knows of the number behind a reference that it fits its type once it
    /// was read.
    fn read(&self)
        ensures { fits self.now };
}

/// Reads the numbers of a part of the slice, for the proof alone: the compiler leaves nothing of it.
#[inline(always)]
pub(crate) fn read_all<T: Signed>(slice: &[T], from: usize, upto: usize)
    requires order { from ≤ upto }
    requires within { upto ≤ length slice.now }
    ensures { (k : ℕ) (d : T) → from ≤ k → k < upto → T.fits (slice_index_or slice.now k d) }
{
    for place in from..upto {
        slice[place].read();
    }
}

impl Signed for i8 {
    ghost fits = { FitsSigned w8 };

    #[inline(always)]
    fn read(&self) {
        let _number = *self;
    }
}

impl Signed for i16 {
    ghost fits = { FitsSigned w16 };

    #[inline(always)]
    fn read(&self) {
        let _number = *self;
    }
}

impl Signed for i32 {
    ghost fits = { FitsSigned w32 };

    #[inline(always)]
    fn read(&self) {
        let _number = *self;
    }
}

impl Signed for i64 {
    ghost fits = { FitsSigned w64 };

    #[inline(always)]
    fn read(&self) {
        let _number = *self;
    }
}

impl Signed for isize {
    ghost fits = { FitsSigned w64 };

    #[inline(always)]
    fn read(&self) {
        let _number = *self;
    }
}
