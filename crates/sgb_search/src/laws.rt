//! Laws of slices that ascend, and of the searches of a slice.
ghost use Rattle.std.specs.Prelude.{◌≡◌, ◌↔◌, ℕ, ◌+◌, ◌-◌, ◌<◌, ◌≤◌, ◌++◌, Bool, not, List, Some, length, map, true};
ghost use Rattle.std.specs.Prelude.{drop, slice_range, take};
ghost use Rattle.std.specs.List.{slice_get, count_by, filter};
ghost use Rattle.std.specs.List.Sorted.{IsPartitionedBy};
ghost use Rattle.std.specs.Ordering.{flip_args, is_lt, is_le, is_eq, is_gt};
ghost use Rattle.std.specs.declared.cmp.Ordering.{Ordering};
ghost use Rattle.std.specs.declared.cmp.Ordering.TheVariants.{Equal};
ghost use Rattle.sgb_split.specs.Split.{IsGrouped, last};
ghost use Rattle.sgb_search.specs.Ranges.{IsRangeAt};
ghost use Rattle.sgb_search.specs.Search.{IsLessEqualGreater, NeverDescends, between};

/// A list that ascends by a key is grouped for equality of that key (`by_key`), and one that ascends for equality of its elements
/// (`by_itself`). So is one that descends (`descending`).
pub fn ascending_is_grouped<T, K: Ord>()
    ensures by_key { (key : T → K) (xs : List T) → NeverDescends K.cmp (map key xs)
        → IsGrouped (λ x y. K.eq (key x) (key y)) xs }
    ensures by_itself { (xs : List K) → NeverDescends K.cmp xs → IsGrouped K.eq xs }
    ensures descending { (xs : List K) → NeverDescends (flip_args K.cmp) xs → IsGrouped K.eq xs }
{}

/// In a list that ascends by a key, comparing the keys with any other answers `Less`, then `Equal`, then `Greater`: a search for that
/// key finds what is there (`by_key`). The same holds for elements that ascend by themselves (`by_itself`), and for a comparator that
/// answers `Equal` from the key `low` to `high` (`between`).
pub fn ascending_is_searchable<T, K: Ord>()
    ensures by_key { (key : T → K) (sought : K) (xs : List T) → NeverDescends K.cmp (map key xs)
        → IsLessEqualGreater (λ x. K.cmp (key x) sought) xs }
    ensures by_itself { (sought : K) (xs : List K) → NeverDescends K.cmp xs
        → IsLessEqualGreater (λ x. K.cmp x sought) xs }
    ensures between { (key : T → K) (low high : K) (xs : List T) → NeverDescends K.cmp (map key xs)
        → IsLessEqualGreater (λ x. between K.cmp low high (key x)) xs }
{}

/// In a list whose answers are `Less`, then `Equal`, then `Greater` (`ascending_is_searchable`), the elements that are `Less` come
/// first (`less`), and so do those that are not `Greater` (`not_greater`). A search for a partition point by either test finds where
/// they end. What stands before that place are those that pass (`before`), and from it on the others (`behind`). `last` is what the
/// method `last` of the part before it gives.
pub fn searchable_is_partitioned<T>()
    ensures less { (ord : T → Ordering) (xs : List T) → IsLessEqualGreater ord xs → IsPartitionedBy (λ x. is_lt (ord x)) xs }
    ensures not_greater { (ord : T → Ordering) (xs : List T) → IsLessEqualGreater ord xs
        → IsPartitionedBy (λ x. is_le (ord x)) xs }
    ensures before { (p : T → Bool) (xs : List T) (place : ℕ) → IsPartitionedBy p xs → place ≡ count_by p xs
        → take place xs ≡ filter p xs }
    ensures behind { (p : T → Bool) (xs : List T) (place : ℕ) → IsPartitionedBy p xs → place ≡ count_by p xs
        → drop place xs ≡ filter (λ x. not (p x)) xs }
    ensures last { (p : T → Bool) (xs : List T) (place : ℕ) → IsPartitionedBy p xs → place ≡ count_by p xs
        → slice_get (take place xs) (length (take place xs) - 1) ≡ last (filter p xs) }
{}

/// Where the equal elements stand, in a list whose answers are `Less`, then `Equal`, then `Greater`: behind as many as are `Less`
/// (`start`), and up to as many as are not `Greater` (`end`). The range of these places is what a filter keeps (`filter`, `range`), and
/// an element is equal exactly if it stands there (`exactly`).
pub fn range_places<T>()
    ensures start { (ord : T → Ordering) (xs : List T) (start end : ℕ) → IsRangeAt xs start end ord
        → start ≡ count_by (λ x. is_lt (ord x)) xs }
    ensures end { (ord : T → Ordering) (xs : List T) (start end : ℕ) → start ≤ end → end ≤ length xs
        → IsRangeAt xs start end ord → end ≡ count_by (λ x. is_le (ord x)) xs }
    ensures whole { (ord : T → Ordering) (xs : List T) → IsLessEqualGreater ord xs
        → xs ≡ filter (λ x. is_lt (ord x)) xs ++ (filter (λ x. is_eq (ord x)) xs ++ filter (λ x. is_gt (ord x)) xs) }
    ensures range { (ord : T → Ordering) (xs : List T) → IsLessEqualGreater ord xs
        → slice_range xs (count_by (λ x. is_lt (ord x)) xs) (count_by (λ x. is_le (ord x)) xs) ≡ filter (λ x. is_eq (ord x)) xs }
    ensures filter { (ord : T → Ordering) (xs : List T) (start end : ℕ) → IsRangeAt xs start end ord
        → slice_range xs start end ≡ filter (λ x. is_eq (ord x)) xs }
    ensures exactly { (ord : T → Ordering) (xs : List T) (start end : ℕ) → start ≤ end → end ≤ length xs
        → IsRangeAt xs start end ord → (i : ℕ) (x : T) → slice_get xs i ≡ Some x
        → ((start ≤ i) × (i < end)) ↔ (ord x ≡ Equal) }
{}
