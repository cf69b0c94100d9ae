//! Laws of the pieces of a list.
ghost use Rattle.std.specs.Prelude.{◌≡◌, ℕ, ◌<◌, Bool, false, true, List, length, flat_map, get_or, map, replicate, sum_by, take, drop};
ghost use Rattle.std.specs.Prelude.{Some, count_by};
ghost use Rattle.std.specs.List.{AllByRecursion, Contains, dedup, filter, zip};
ghost use Rattle.std.specs.Ordering.{flip_args, is_lt};
ghost use Rattle.sgb_linear_group.specs.Best.{best_of_each};
ghost use Rattle.sgb_search.specs.Search.{AlwaysAscends, NeverDescends};
ghost use Rattle.sgb_split.specs.Split.{concat, first, split};
ghost use Rattle.slice_group_by.specs.Dedup.{counted};
ghost use Rattle.slice_group_by.specs.Keyed.{keyed};
ghost use Rattle.slice_group_by.specs.Offsets.{with_offsets};

/// In a list that ascends by a key:
///
/// - `firsts`: the keys of the first elements of the pieces, which `dedup` leaves (`pieces_have_keys`), ascend strictly.
/// - `each`: a piece holds all elements of its key. A filter of the list by the key of any of its elements gives the piece.
/// - `keyed`, `by_first`: the pieces with their keys, as `sees_keys` has them, are the keys in order, each once, and with each all
///   elements that have it.
pub fn pieces_by_key<T, K: Ord>()
    ensures firsts { (key : T → K) (xs : List T) → NeverDescends K.cmp (map key xs)
        → AlwaysAscends K.cmp (map key (dedup (λ a b. K.eq (key a) (key b)) xs)) }
    ensures each { (key : T → K) (xs g : List T) (x : T) → NeverDescends K.cmp (map key xs)
        → Contains (split (λ a b. K.eq (key a) (key b)) xs) g → Contains g x → g ≡ filter (λ y. K.eq (key y) (key x)) xs }
    ensures keyed { (key : T → K) (xs : List T) → NeverDescends K.cmp (map key xs)
        → keyed key (split (λ a b. K.eq (key a) (key b)) xs)
        ≡ map (λ k. (k, filter (λ y. K.eq (key y) k) xs)) (dedup K.eq (map key xs)) }
    ensures by_first { (key : T → K) (d : T) (xs : List T) → NeverDescends K.cmp (map key xs)
        → map {B = K × List T} (λ g. (key (get_or g 0 d), g)) (split (λ a b. K.eq (key a) (key b)) xs)
        ≡ map (λ k. (k, filter (λ y. K.eq (key y) k) xs)) (dedup K.eq (map key xs)) }
{}

/// A piece by a test that accepts equal elements alone is its first element, so many times. So the lengths and first elements of
/// the pieces, as `sees_counts` has them, are a code of the list (`decode`).
pub fn equal_pieces_are_copies<T>()
    ensures one { (p : T → T → Bool) → ((x y : T) → p x y ≡ true → x ≡ y) → (xs g : List T) (x : T)
        → Contains (split p xs) g → first g ≡ Some x → g ≡ replicate (length g) x }
    ensures copies { (p : T → T → Bool) → ((x y : T) → p x y ≡ true → x ≡ y) → (d : T) (xs : List T)
        → map (λ g. replicate (length g) (get_or g 0 d)) (split p xs) ≡ split p xs }
    ensures decode { (p : T → T → Bool) → ((x y : T) → p x y ≡ true → x ≡ y) → (xs : List T)
        → flat_map (λ r. replicate r.0 r.1) (counted (split p xs)) ≡ xs }
{}

/// The keys of pieces by keys, in whatever list. With the elements themselves as keys these are the pieces by `==`.
///
/// - `firsts`, `begin`: their first elements are what the standard library's `dedup` by these keys leaves; so there are as many
///   pieces (`count`), and the keys of what is left are the keys, each once (`keys`).
/// - `one`: where equal keys are the same, the keys of a piece are that of its first element, so many times.
/// - `alike`: where each key equals itself, any two elements of a piece have equal keys.
pub fn pieces_have_keys<T, K: PartialEq>()
    ensures firsts { (key : T → K) (xs : List T) → map first (split (λ a b. K.eq (key a) (key b)) xs)
        ≡ map Some (dedup (λ a b. K.eq (key a) (key b)) xs) }
    ensures begin { (key : T → K) (d : T) (xs : List T)
        → map (λ g. get_or g 0 d) (split (λ a b. K.eq (key a) (key b)) xs) ≡ dedup (λ a b. K.eq (key a) (key b)) xs }
    ensures keys { (key : T → K) (xs : List T) → map key (dedup (λ a b. K.eq (key a) (key b)) xs) ≡ dedup K.eq (map key xs) }
    ensures count { (key : T → K) (xs : List T) → length (split (λ a b. K.eq (key a) (key b)) xs)
        ≡ length (dedup (λ a b. K.eq (key a) (key b)) xs) }
    ensures one { ((a b : K) → K.eq a b ≡ true → a ≡ b) → (key : T → K) (d : T) (xs g : List T)
        → Contains (split (λ a b. K.eq (key a) (key b)) xs) g → map key g ≡ replicate (length g) (key (get_or g 0 d)) }
    ensures alike { ((a : K) → K.eq a a ≡ true) → (key : T → K) (xs g : List T) (x y : T)
        → Contains (split (λ a b. K.eq (key a) (key b)) xs) g → Contains g x → Contains g y → K.eq (key x) (key y) ≡ true }
{}

/// The pieces of a list have its length together, and a sum over them is the sum over the list.
pub fn pieces_add_up<T>()
    ensures lengths { (p : T → T → Bool) (xs : List T) → sum_by length (split p xs) ≡ length xs }
    ensures sums { (p : T → T → Bool) (f : T → ℕ) (xs : List T) → sum_by (λ g. sum_by f g) (split p xs) ≡ sum_by f xs }
{}

/// The pieces whose first element passes a test, joined, are the elements that pass it: the tokens of a text without white space, the
/// runs that are not 0. The test answers alike on two neighbours that the split accepts, as one of their key does.
///
/// May change.
pub fn passed_pieces_join<T>()
    ensures { (p : T → T → Bool) (keep : T → Bool) → ((x y : T) → p x y ≡ true → keep x ≡ keep y) → (d : T) (xs : List T)
        → concat (filter (λ g. keep (get_or g 0 d)) (split p xs)) ≡ filter keep xs }
{}

/// Queries by a key, in a list that ascends by it. They give one result for each key, in order.
///
/// - `having`: what `f` makes of each piece that passes a test, and of its key, is what it makes of each key whose elements, taken
///   together, pass the test: `GROUP BY` with `HAVING`.
/// - `ranks`: the offset of a piece is how many elements have a lesser key. In a list that descends by the key it is how many have a
///   greater one (`ranks_down`).
pub fn queries_by_key<T, K: Ord, R>()
    ensures having { (f : K → List T → R) (test : List T → Bool) (key : T → K) (d : T) (xs : List T) → NeverDescends K.cmp (map key xs)
        → map (λ g. f (key (get_or g 0 d)) g) (filter test (split (λ a b. K.eq (key a) (key b)) xs))
        ≡ map (λ k. f k (filter (λ y. K.eq (key y) k) xs))
        (filter (λ k. test (filter (λ y. K.eq (key y) k) xs)) (dedup K.eq (map key xs))) }
    ensures ranks { (f : K → ℕ → R) (key : T → K) (d : T) (xs : List T) → NeverDescends K.cmp (map key xs)
        → map (λ e. f (key (get_or e.1 0 d)) e.0) (with_offsets 0 (split (λ a b. K.eq (key a) (key b)) xs))
        ≡ map (λ k. f k (count_by (λ y. is_lt (K.cmp (key y) k)) xs)) (dedup K.eq (map key xs)) }
    ensures ranks_down { (f : K → ℕ → R) (key : T → K) (d : T) (xs : List T) → NeverDescends (flip_args K.cmp) (map key xs)
        → map (λ e. f (key (get_or e.1 0 d)) e.0) (with_offsets 0 (split (λ a b. K.eq (key a) (key b)) xs))
        ≡ map (λ k. f k (count_by (λ y. is_lt (K.cmp k (key y))) xs)) (dedup K.eq (map key xs)) }
{}

/// What `partition_best_by` keeps if `worse` is an order: what is not worse is transitive, and of two elements at most one is worse.
/// Of a list that ascends by a key, each is an element of the list, and none with its key is better.
/// May change.
pub fn bests_are_greatest<T, K: Ord>()
    ensures { (worse : T → T → Bool) → ((x y : T) → worse x y ≡ true → worse y x ≡ false)
        → ((x y z : T) → worse x y ≡ false → worse y z ≡ false → worse x z ≡ false)
        → (key : T → K) (xs : List T) → NeverDescends K.cmp (map key xs)
        → AllByRecursion (λ best. Contains xs best
        × ((y : T) → Contains xs y → K.eq (key y) (key best) ≡ true → worse best y ≡ false))
        (best_of_each worse (split (λ a b. K.eq (key a) (key b)) xs)) }
{}

/// Two columns of one length are rows of pairs: the pieces of the keys, each with the values at its places (`groups_stand`), are
/// the two columns of the pieces of the rows by their keys.
/// May change.
pub fn columns_split<A, B>()
    ensures { (p : A → A → Bool) (keys : List A) (values : List B) → length values ≡ length keys
        → map {B = List A × List B} (λ x. (x.1, take (length x.1) (drop x.0 values))) (with_offsets 0 (split p keys))
        ≡ map (λ rows. (map (λ r. r.0) rows, map (λ r. r.1) rows)) (split (λ r s. p r.0 s.0) (zip keys values)) }
{}
