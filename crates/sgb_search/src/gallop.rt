//! Halving and galloping over places, in either direction.
ghost use Rattle.std.specs.Prelude.{◌≡◌, ◌≢◌, ℕ, ◌≤◌, Err};
ghost use Rattle.std.specs.declared.cmp.Ordering.TheVariants.{Equal};
ghost use Rattle.sgb_split.specs.Judges.{IsCallable};
ghost use Rattle.std.specs.declared.cmp.Ordering.{Ordering};
ghost use Rattle.sgb_search.specs.Searching.{as_ordering, binary, exponential, answer_place, IsPlaceSearch, IsBracket, IsBetween};

use std::cmp::Ordering;

/// Places that can each be compared with what is sought, by a question to an asker, which the question may change.
pub trait Places<A> {
    // The asker may be asked about the place.
    ghost may_compare: { A → Self → ℕ → Type 0 };

    /// What it answers.
    type Answer;

    // The asker before, the place, an answer that may come, and the asker after.
    ghost compares: { A → Self → ℕ → Self.Answer → A → Type 0 };

    // An answer, as how the place compares with what is sought.
    ghost reads: { Self → Self.Answer → Ordering };

    /// How the place compares with what is sought: one question.
    fn compare(&self, asker: &mut A, place: usize) -> Ordering
        requires { may_compare asker.old self.now place }
        ensures { (a : Self.Answer) × compares asker.old self.now place a asker.new × (result ≡ reads self.now a) };
}

/// How a place compares with the end of those that belong to what is searched: it lies before it, or beyond it.
#[inline]
pub fn before_end(belongs: bool) -> Ordering
    ensures { result ≡ as_ordering belongs }
{
    if belongs {
        Ordering::Less
    } else {
        Ordering::Greater
    }
}

/// The place that a search gives, found or not.
#[inline]
pub fn answer_place(found: Result<usize, usize>) -> usize
    ensures { result ≡ answer_place found }
{
    match found {
        Ok(place) | Err(place) => place,
    }
}

/// Halves the places from `low` up to, not including, `high` until one answers `Equal` or none is left.
///
/// `Ok(i)` is the place that answered `Equal`; `Err(i)` is where the search ended, from `low` up to `high`. At most
/// `digits(high - low)` questions, each about one of these places.
#[inline]
pub fn halve<A, P: Places<A>>(
    asker: &mut A,
    places: &P,
    low: usize,
    high: usize,
) -> Result<usize, usize>
    requires order { low ≤ high }
    requires callable { IsCallable (λ s i. P.may_compare s places.now i)
        (λ s i a t. P.compares s places.now i a t) (IsBetween low high) asker.old }
    ensures { IsPlaceSearch (λ s i. P.may_compare s places.now i) (λ s i a t. P.compares s places.now i a t)
        (λ a. P.reads places.now a) binary low high asker.old result asker.new }
{
    let mut from = low;
    let mut upto = high;
    // `size` may exceed `upto - from` by one. Halving it regardless of the answer keeps the loop free of branches.
    let mut size = high - low;
    while from < upto {
        let middle = from + (size - 1) / 2;
        let order = places.compare(asker, middle);
        if order.is_lt() {
            from = middle + 1;
        }
        if order.is_gt() {
            upto = middle;
        }
        if order.is_eq() {
            return Ok(middle);
        }
        size /= 2;
    }
    Err(from)
}

/// Doubles the distance from `low` while the place is below `high` and answers `Less`: the last place that did, or `low`, and the
/// first that did not, or `high`. Its questions and those of halving between them, at the last place too, are together at most
/// `2 * digits(from - low + 1) + 1`.
#[inline]
fn bracket<A, P: Places<A>>(asker: &mut A, places: &P, low: usize, high: usize) -> (usize, usize)
    requires order { low ≤ high }
    requires callable { IsCallable (λ s i. P.may_compare s places.now i)
        (λ s i a t. P.compares s places.now i a t) (IsBetween low high) asker.old }
    ensures { IsBracket (λ s i. P.may_compare s places.now i) (λ s i a t. P.compares s places.now i a t)
        (λ a. P.reads places.now a) low high asker.old result.0 result.1 asker.new }
{
    if high - low < 2 {
        return (low, high);
    }
    let mut from = low;
    let mut next = low + 1;
    while places.compare(asker, next).is_lt() {
        let step = next - low;
        from = next;
        if high - from <= step {
            return (from, high);
        }
        next += step;
    }
    (from, next)
}

/// Gallops over the places from `low` up to, not including, `high`, from `low` on, and then halves.
///
/// `Ok(i)` is a place that answered `Equal`; `Err(i)` is where the search ended, from `low` up to `high`. At most
/// `2 * digits(i - low + 1) + 1` questions, each about one of these places, and none if there are none.
#[inline]
pub fn gallop<A, P: Places<A>>(
    asker: &mut A,
    places: &P,
    low: usize,
    high: usize,
) -> Result<usize, usize>
    requires order { low ≤ high }
    requires callable { IsCallable (λ s i. P.may_compare s places.now i)
        (λ s i a t. P.compares s places.now i a t) (IsBetween low high) asker.old }
    ensures { IsPlaceSearch (λ s i. P.may_compare s places.now i) (λ s i a t. P.compares s places.now i a t)
        (λ a. P.reads places.now a) exponential low high asker.old result asker.new }
{
    let (from, last) = bracket(asker, places, low, high);
    let upto = if last < high { last + 1 } else { high };
    halve(asker, places, from, upto)
}

/// Gallops as `gallop` does, over places of which none answers `Equal`, and halves with no branch on an answer, between the places that
/// galloping asked about: for answers that nothing predicts. The place where the search ended, by at most `2 * digits(i - low + 1) + 1` questions for a place i.
#[inline]
pub fn bisect<A, P: Places<A>>(asker: &mut A, places: &P, low: usize, high: usize) -> usize
    requires order { low ≤ high }
    requires two { (a : P.Answer) → P.reads places.now a ≢ Equal }
    requires callable { IsCallable (λ s i. P.may_compare s places.now i)
        (λ s i a t. P.compares s places.now i a t) (IsBetween low high) asker.old }
    ensures { IsPlaceSearch (λ s i. P.may_compare s places.now i) (λ s i a t. P.compares s places.now i a t)
        (λ a. P.reads places.now a) exponential low high asker.old (Err result) asker.new }
{
    let (last, upto) = bracket(asker, places, low, high);
    let mut from = if last > low { last + 1 } else { low };
    let mut size = upto - from;
    while size > 0 {
        let middle = from + size / 2;
        // Two values wait for the answer: where `from` alone does, or two ends do, the compiler makes a branch.
        if places.compare(asker, middle).is_lt() {
            from = middle + 1;
            size -= 1;
        }
        size /= 2;
    }
    from
}
