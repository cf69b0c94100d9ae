//! Whether a slice is sorted, and so grouped.
ghost use Rattle.std.specs.Prelude.{◌≡◌, ◌++◌, Bool, List, map, true};
ghost use Rattle.std.specs.List.{IsAllAdjacentAnswer};
ghost use Rattle.std.specs.List.Sorted.{IsSorted, IsSortedByKey};
ghost use Rattle.std.specs.Ordering.{partial_le};
ghost use Rattle.sgb_split.specs.Split.{IsGrouped};
ghost use Rattle.sgb_search.specs.Search.{NeverDescends};

/// Whether no neighbouring pair of the slice descends. Then it is grouped for `==`, so that the binary and exponential
/// iterators find the groups that the linear ones find. A slice may be grouped and not sorted, as `[2, 1]` is.
///
/// It compares each neighbouring pair from the front on, by `<=`, up to the first that descends.
///
/// ```
/// is_sorted_for_groups(&[1, 1, 2]); // true
/// is_sorted_for_groups(&[1, 2, 1]); // false
/// ```
pub fn is_sorted_for_groups<T: Ord>(slice: &[T]) -> bool
    ensures sorted { result ≡ true → NeverDescends T.cmp slice.now }
    ensures only { NeverDescends T.cmp slice.now → result ≡ true }
    ensures grouped { result ≡ true → IsGrouped T.eq slice.now }
{
    slice.is_sorted()
}

/// What sorting leaves never descends: what `sort` ensures, and, by a key that its function computes, what `sort_by_key` does. And
/// what never descends, as of a slice of which `is_sorted_for_groups` says yes, is sorted as they leave it, and each part of it never
/// descends (`part`).
///
/// `is_sorted_by_key` says yes exactly of the slices that never descend by the key, which its function computes (`said_by_key`,
/// `only_by_key`).
pub fn sorts_ascend<T, K: Ord>()
    ensures by_itself { (xs : List K) → IsSorted K.cmp xs → NeverDescends K.cmp xs }
    ensures by_key { (key : T → K) (xs : List T) → IsSortedByKey key K.cmp xs → NeverDescends K.cmp (map key xs) }
    ensures sorted { (xs : List K) → NeverDescends K.cmp xs → IsSorted K.cmp xs }
    ensures part { (before part after : List K) → NeverDescends K.cmp (before ++ (part ++ after)) → NeverDescends K.cmp part }
    ensures said_by_key { (key : T → K) (xs : List T) (sorted : Bool)
        → IsAllAdjacentAnswer (λ x y b. b ≡ partial_le K.partial_cmp (key x) (key y)) xs sorted
        → sorted ≡ true → NeverDescends K.cmp (map key xs) }
    ensures only_by_key { (key : T → K) (xs : List T) (sorted : Bool)
        → IsAllAdjacentAnswer (λ x y b. b ≡ partial_le K.partial_cmp (key x) (key y)) xs sorted
        → NeverDescends K.cmp (map key xs) → sorted ≡ true }
{}
