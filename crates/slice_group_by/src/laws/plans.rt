//! Plans of questions, and an adversary that shows what each of them costs.
ghost use Rattle.std.specs.Prelude.{◌≡◌, ℕ, ◌-◌, ◌<◌, ◌≤◌, ◌^◌, Bool, List, Some, length, nat_lt};
ghost use Rattle.std.specs.List.{slice_get};
ghost use Rattle.sgb_search.specs.Searching.{digits};
ghost use Rattle.slice_group_by.specs.declared.laws.plans.Plan.{Plan};
ghost use Rattle.sgb_split.specs.Split.{IsGrouped, first, split};
ghost use Rattle.slice_group_by.specs.Plans.{IsRefuted, IsRight, run};

/// A plan of questions that finds how long the first group of a grouped slice is, by comparing its first element with others.
///
/// `Ask(q, yes, no)` asks about the element at place `q`, which agrees with the first exactly if the group has more than `q`
/// elements, and goes on with `yes` if it does and else with `no`. `Answer(a)` says that the group has `a` elements.
#[derive(Drop)]
pub enum Plan {
    Answer(usize),
    Ask(usize, Box<Plan>, Box<Plan>),
}

/// A length of the first group, from 1 up to `n`, at which the plan answers something else, or asks at least as many
/// questions as a halving search may: `digits(n - 1)`, the number of binary digits. It takes no memory, and time by the
/// depth of the plan.
///
/// ```
/// refute(&Plan::Answer(1), 2); // 2
/// ```
pub fn refute(plan: &Plan, n: usize) -> usize
    requires { 0 < n }
    ensures first { 1 ≤ result }
    ensures last { result ≤ n }
    ensures refuted { IsRefuted plan.now n result }
{
    // The adversary answers so that the larger part of the lengths from `low` up to `high` remains.
    let mut low = 1;
    let mut high = n;
    let mut current = plan;
    while let Plan::Ask(place, yes, no) = current {
        if *place < low {
            current = yes;
        } else if *place >= high {
            current = no;
        } else if high - *place > *place - low {
            low = *place + 1;
            current = yes;
        } else {
            high = *place;
            current = no;
        }
    }
    match current {
        Plan::Answer(answer) if *answer == low => high,
        _ => low,
    }
}

/// No plan of questions has a smaller worst case than halving: each that answers every length from 1 up to n rightly asks
/// at least `digits(n - 1)` questions at one of them (`most`). `digits(m)` is the least d with m below the d-th power of two
/// (`above`, `least`).
///
/// A plan compares the first element with others, and nothing else. Of a grouped list, the element at a place q > 0 agrees with
/// the first, in either order, exactly if the first piece has more than q elements (`agrees`).
pub fn right_plans_ask<T>()
    ensures most { (plan : Plan) (n : ℕ) → 0 < n → IsRight plan 1 n
        → (l : ℕ) × (1 ≤ l) × (l ≤ n) × (digits (n - 1) ≤ (run plan l).1) }
    ensures above { (m : ℕ) → m < 2 ^ digits m }
    ensures least { (m d : ℕ) → m < 2 ^ d → digits m ≤ d }
    ensures agrees { (p : T → T → Bool) (xs group : List T) → IsGrouped p xs → first (split p xs) ≡ Some group
        → (q : ℕ) (x y : T) → 0 < q → slice_get xs 0 ≡ Some x → slice_get xs q ≡ Some y
        → (p x y ≡ nat_lt q (length group)) × (p y x ≡ nat_lt q (length group)) }
{}
