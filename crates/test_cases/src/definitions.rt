//! Definitions that contracts cite, at small cases. Each case is the contract of a function that does nothing.
ghost use Rattle.std.specs.Prelude.{◌≡◌, [], ◌∷◌, true, false, not, nat_eq};
ghost use Rattle.std.specs.Ordering.{nat_cmp};
ghost use Rattle.slice_group_by.specs.Split.{IsGrouped};
ghost use Rattle.slice_merge_join.specs.Merge.{IsMerge};
ghost use Rattle.slice_group_by.specs.Matches.{has_partner, partner_count, match_count};
ghost use Rattle.slice_merge_join.specs.declared.EitherOrBoth.TheVariants.{Left, Right, Both};

// Unequal elements are grouped for `!=`, and equal ones apart are not for `==`.
pub fn group_cases()
    ensures unequal { IsGrouped (λ a b. not (nat_eq a b)) (1 ∷ 2 ∷ 3 ∷ []) }
    ensures descending { IsGrouped nat_eq (2 ∷ 1 ∷ []) }
    ensures apart { IsGrouped nat_eq (1 ∷ 2 ∷ 1 ∷ []) → ⊥ }
{}

// 1 and 3 with 2, 3, 3; and a merge in which 2 comes before 1 is none.
pub fn merge_cases()
    ensures parts { IsMerge nat_cmp (1 ∷ 3 ∷ []) (2 ∷ 3 ∷ 3 ∷ [])
        (Left (1 ∷ []) ∷ Right (2 ∷ []) ∷ Both (3 ∷ []) (3 ∷ 3 ∷ []) ∷ []) }
    ensures turned { IsMerge nat_cmp (1 ∷ []) (2 ∷ []) (Right (2 ∷ []) ∷ Left (1 ∷ []) ∷ []) → ⊥ }
{}

// Of 2, 3, 3 none is equal to 1, and each 3 to both; so 1, 3, 3 have four equal pairs with them.
pub fn pair_cases()
    ensures none { (has_partner nat_cmp (2 ∷ 3 ∷ 3 ∷ []) 1 ≡ false) × (partner_count nat_cmp (2 ∷ 3 ∷ 3 ∷ []) 1 ≡ 0) }
    ensures two { (has_partner nat_cmp (2 ∷ 3 ∷ 3 ∷ []) 3 ≡ true) × (partner_count nat_cmp (2 ∷ 3 ∷ 3 ∷ []) 3 ≡ 2) }
    ensures four { match_count nat_cmp (1 ∷ 3 ∷ 3 ∷ []) (2 ∷ 3 ∷ 3 ∷ []) ≡ 4 }
{}
