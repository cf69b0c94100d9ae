//! The scan that finds a group of elements, over any judge.
ghost use Rattle.std.specs.Prelude.{◌+◌, ◌<◌, ◌≤◌, length, slice_range};
ghost use Rattle.sgb_split.specs.Questions.{IsRun, IsCallable, questions};
ghost use Rattle.sgb_split.specs.Split.{AreNeighbours};

use sgb_split::end::End;
use sgb_split::judge::Judge;

// How many elements the group has at the end of the part of the slice from the place `low` up to, not including, `high`. It asks about
// neighbours from that end on, up to the first pair that is refused. The left element of each pair comes first.
#[inline]
pub(crate) fn scan<T, J: Judge<T>>(
    end: End,
    slice: &[T],
    low: usize,
    high: usize,
    judge: &mut J,
) -> usize
    requires nonempty { low < high }
    requires inside { high ≤ length slice.now }
    requires callable { IsCallable J.may_ask J.answers (AreNeighbours (slice_range slice.now low high)) judge.old }
    ensures nonempty { 0 < result }
    ensures within { low + result ≤ high }
    ensures asked { IsRun J.may_ask J.answers judge.old (questions end (slice_range slice.now low high) result) judge.new }
{
    let size = high - low;
    let mut len = 1;
    while len < size {
        let right = match end {
            End::Front => low + len,
            End::Back => high - len,
        };
        let together = judge.ask(&slice[right - 1], &slice[right]);
        if !together {
            return len;
        }
        len += 1;
    }
    len
}
