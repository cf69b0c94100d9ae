//! What calls on groups for writing hand out, and what their notes keep.
ghost use Rattle.std.specs.Prelude.{◌≡◌, Bool, List, ◌++◌, Option, Some, map};
ghost use Rattle.sgb_split.specs.Split.{concat, split};
ghost use Rattle.sgb_split.specs.declared.end.End.{End};
ghost use Rattle.sgb_loans.specs.Loans.{before_with, after_with};

use crate::laws::judged::Lends;

/// What a loop keeps that notes each group as it comes, at either end. A call leads from `s` to `t`, and the note of how its group
/// was left from `t` to `u`. If `f` says how each piece is left, what is noted, and between it what `f` makes of the pieces to come,
/// is the same list before and after. So it is the invariant of the loop, and where no group is left it says what the input ends as.
/// May change.
pub fn notes_keep_pieces<T, S: Lends<T>>(_groups: &S)
    ensures { (p : S.Element → S.Element → Bool) (f : List S.Element → List T) (e : End) (s t u : S) (group : S.Item)
        (value whole : List T) → S.GroupQueue.gives e s (Some group) t → S.GroupQueue.is_settled s p
        → S.GroupQueue.remainder u ≡ S.GroupQueue.remainder t
        → (S.loans u).before ≡ before_with e (S.loans t).before value
        → (S.loans u).after ≡ after_with e value (S.loans t).after
        → value ≡ f (S.GroupQueue.shows group)
        → (S.loans s).before ++ (concat (map f (split p (S.GroupQueue.remainder s))) ++ (S.loans s).after) ≡ whole
        → (S.loans u).before ++ (concat (map f (split p (S.GroupQueue.remainder u))) ++ (S.loans u).after) ≡ whole }
{}
