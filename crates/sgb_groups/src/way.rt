//! The way in which a family of groups finds where a group ends.
ghost use Rattle.std.specs.Prelude.{◌<◌, ◌≤◌, ◌+◌, ◌++◌, ℕ, Bool, List, length, Option, slice_range};
ghost use Rattle.sgb_split.specs.declared.end.End.{End};
ghost use Rattle.sgb_split.specs.declared.judge.Judge.{Ghosts};
ghost use Rattle.sgb_split.specs.Calls.{CallAt, IsCallableBy, ComputesBy, Groups};
ghost use Rattle.sgb_split.specs.Judges.{IsCallable, IsRunOf, AsksWithin};
ghost use Rattle.sgb_split.specs.Split.{TakesPiece};

use sgb_split::end::End;
use sgb_split::judge::Judge;

/// How the group at an end of a slice is found: what is asked of the judge for it, for which tests that gives the pieces of the
/// split, and what a walk may ask.
pub trait Way {
    // The pairs that a call may ask about, of the elements that remain: of linear groups each neighbouring pair, the left element
    // first; of binary and exponential ones every two different places, in both orders. One element has no pair.
    ghost allowed: { (T : Type 0) → List T → T × T → Type 0 };

    // `asks g e xs n j k`: a call at the end e that takes n of the elements xs may lead the judge from j to k.
    ghost asks: { (T J : Type 0) → Ghosts J T → End → List T → ℕ → J → J → Type 0 };

    // What the elements have to be like for a test, so that calls find the pieces of the split.
    ghost fits: { (T : Type 0) → (T → T → Bool) → List T → Type 0 };

    // Calls find the pieces of the remainder for this test.
    ghost settled: { (T J : Type 0) → Ghosts J T → Groups T J → (T → T → Bool) → Type 0 };

    // The most questions that calls can ask that take all elements.
    ghost due: { (T : Type 0) → List T → ℕ };

    // Whether they ask exactly as many.
    ghost exact: { Bool };

    // They do where the judge answers what the test says and the elements fit it.
    ghost settled_if_fits: { (T J : Type 0) (g : Ghosts J T) (s : Groups T J) (p : T → T → Bool)
        → ComputesBy (allowed T) g s p → fits T p s.remainder → settled T J g s p };

    // And where they do, the elements fit it.
    ghost fits_if_settled: { (T J : Type 0) (g : Ghosts J T) (s : Groups T J) (p : T → T → Bool)
        → settled T J g s p → fits T p s.remainder };

    // A call on a settled iterator takes the piece there of the split, and leaves it settled.
    ghost piece: { (T J : Type 0) (g : Ghosts J T) (e : End) (s : Groups T J) (group : Option (List T)) (t : Groups T J)
        (p : T → T → Bool) → CallAt (asks T J g) e s group t → settled T J g s p
        → TakesPiece p e s.remainder group t.remainder × settled T J g t p };

    // Where a call may be made, one may be made after it.
    ghost keeps: { (T J : Type 0) (g : Ghosts J T) (e : End) (s : Groups T J) (group : Option (List T)) (t : Groups T J)
        → CallAt (asks T J g) e s group t → IsCallableBy (allowed T) g s → IsCallableBy (allowed T) g t };

    // Where a call may be made, one may be made on the elements behind some others, and there it is settled if it is settled here.
    ghost callable_behind: { (T J : Type 0) (g : Ghosts J T) (before rest : List T) (j : J)
        → IsCallableBy (allowed T) g (record { remainder = before ++ rest; judge = j })
        → IsCallableBy (allowed T) g (record { remainder = rest; judge = j }) };

    ghost settled_behind: { (T J : Type 0) (g : Ghosts J T) (before rest : List T) (j : J) (p : T → T → Bool)
        → settled T J g (record { remainder = before ++ rest; judge = j }) p
        → settled T J g (record { remainder = rest; judge = j }) p };

    // Whatever is answered, a call asks no more than it takes off what is due.
    ghost asks_due: { (T J : Type 0) (g : Ghosts J T) (e : End) (s : Groups T J) (group : Option (List T))
        (t : Groups T J)
        → CallAt (asks T J g) e s group t
        → AsksWithin (λ q r n. IsRunOf g.may_ask g.answers n q.judge r.judge) (λ q. due T q.remainder) exact s t };

    /// How many elements the group has at the end of the part of the slice from the place `low` up to, not including, `high`.
    fn group_len<T, J: Judge<T>>(
        end: End,
        slice: &[T],
        low: usize,
        high: usize,
        judge: &mut J,
    ) -> usize
        requires nonempty { low < high }
        requires inside { high ≤ length slice.now }
        requires callable { IsCallable J.may_ask J.answers (allowed T (slice_range slice.now low high)) judge.old }
        ensures nonempty { 0 < result }
        ensures within { low + result ≤ high }
        ensures asked { asks T J J.Judge end (slice_range slice.now low high) result judge.old judge.new };
}
