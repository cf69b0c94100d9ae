//! Groups with the offsets at which they begin.
ghost use Rattle.std.specs.Prelude.{◌≡◌, map, nat_eq, IfOk};
ghost use Rattle.slice_group_by.specs.Split.{split};
ghost use Rattle.slice_group_by.specs.Offsets.{with_offsets};

use slice_group_by::laws::{groups_stand, sees_pieces};
use slice_group_by::{GroupAdapters, LinearGroup};
use std::alloc::{AllocError, Global};

/// The runs of equal numbers, each with the row at which it begins: the sum of the lengths of those before it.
pub fn runs_with_rows(alloc: Global, slice: &[u32]) -> Result<Vec<(usize, &[u32])>, AllocError>
    ensures { IfOk result
        (λ runs. map (λ run. (run.0, run.1.now)) runs.items ≡ with_offsets 0 (split nat_eq slice.now)) }
{
    let runs = LinearGroup::new(slice).with_offsets();
    sees_pieces(&runs);
    groups_stand(&runs);
    runs.collect(alloc)
}
