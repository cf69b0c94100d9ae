//! Plans of questions.
ghost use Rattle.std.specs.Prelude.{◌≤◌, ◌<◌, ◌^◌};
ghost use Rattle.slice_group_by.specs.Plans.{IsRight, run};

use slice_group_by::laws::right_plans_ask;
use slice_group_by::{Plan, refute};

/// A length of the first group, from 1 up to `n`, for which a plan that answers each of them rightly asks q questions with n <= 2^q.
/// So it asks no fewer than halving does.
pub fn hardest_length(plan: &Plan, n: usize) -> usize
    requires some { 0 < n }
    requires right { IsRight plan.now 1 n }
    ensures { n ≤ 2 ^ (run plan.now result).1 }
{
    right_plans_ask::<u8>();
    refute(plan, n)
}
