//! Laws of the definitions. Each is a function that does nothing: its contract is the law, and a caller cites it.
ghost use Rattle.std.specs.Prelude.{cond, ◌≡◌, ℕ, ◌+◌, ◌<◌, ◌≤◌, ◌++◌, Bool, List, Some, length, map, take, drop};
ghost use Rattle.std.specs.Fn.{ComputesKey, Takes, TakesAt, TakesAtTwo, CalledAt, CalledAtTwo};
ghost use Rattle.std.specs.List.{Contains};
ghost use Rattle.sgb_split.specs.Split.{AreApart, AreNeighbours, IsGrouped, IsSplit, concat, last};
ghost use Rattle.sgb_split.specs.Split.{without_last, split, refused_pairs};
ghost use Rattle.sgb_split.specs.Seams.{is_accepted_across, lens_joined, seam};
ghost use Rattle.sgb_split.specs.Calls.{ComputesBy, IsCallableBy};
ghost use Rattle.sgb_split.specs.Judges.{IsCallableOn, ComputesOn};
ghost use Rattle.sgb_split.specs.Judges.{IsRunOf, by_predicate, predicate_judge, by_key, key_judge};
ghost use Rattle.sgb_split.specs.Judges.{by_char_predicate, char_predicate_judge, by_char_key, char_key_judge, by_equality};
ghost use Rattle.sgb_split.specs.Judges.{CalledAtChar};
ghost use Rattle.sgb_split.specs.declared.judge.EqualityJudge.{EqualityJudge};

/// Each list has exactly one split for a test, whose pieces joined are the list. It has one piece more than the test refuses
/// pairs, and none if it is empty: no more pieces than elements. A part of a grouped list is grouped
/// (`front`, `rest`).
pub fn one_split<T>()
    ensures covers { (p : T → T → Bool) (xs : List T) → concat (split p xs) ≡ xs }
    ensures exists { (p : T → T → Bool) (xs : List T) → IsSplit p xs (split p xs) }
    ensures unique { (p : T → T → Bool) (xs : List T) (ps : List (List T)) → IsSplit p xs ps → ps ≡ split p xs }
    ensures count { (p : T → T → Bool) (xs : List T) → 0 < length xs → length (split p xs) ≡ refused_pairs p xs + 1 }
    ensures few { (p : T → T → Bool) (xs : List T) → length (split p xs) ≤ length xs }
    ensures front { (p : T → T → Bool) (n : ℕ) (xs : List T) → IsGrouped p xs → IsGrouped p (take n xs) }
    ensures rest { (p : T → T → Bool) (n : ℕ) (xs : List T) → IsGrouped p xs → IsGrouped p (drop n xs) }
{}

/// The split of `xs ++ ys` is the split of `xs` and then that of `ys`, but where the pair across the seam is accepted, the two pieces
/// beside it are one (`seam`).
///
/// - `kept`: to split what comes in parts, keep the last piece alone.
/// - `count`: counting part by part counts one piece too many at each accepted seam.
/// - `lens`: there the lengths of the two pieces add up.
pub fn splits_join<T>()
    ensures seam { (p : T → T → Bool) (xs ys : List T) → split p (xs ++ ys) ≡ seam p (split p xs) (split p ys) }
    ensures kept { (p : T → T → Bool) (xs ys group : List T) → last (split p xs) ≡ Some group
        → split p (xs ++ ys) ≡ without_last (split p xs) ++ split p (group ++ ys) }
    ensures count { (p : T → T → Bool) (xs ys : List T)
        → length (split p (xs ++ ys)) + cond (is_accepted_across p xs ys) 1 0 ≡ length (split p xs) + length (split p ys) }
    ensures lens { (p : T → T → Bool) (xs ys : List T) → map length (split p (xs ++ ys))
        ≡ lens_joined (is_accepted_across p xs ys) (map length (split p xs)) (map length (split p ys)) }
{}

/// A predicate that may always be called may be asked about the neighbouring pairs of every slice (`along`), and about every two
/// different places, in both orders (`apart`).
pub fn always_callable<T, P: FnMut(&T, &T) -> bool>()
    ensures along { (xs : List T) (predicate : P) → P.IsAlwaysCallable predicate
        → IsCallableBy AreNeighbours (by_predicate P.FnMut)
        (record { remainder = xs; judge = predicate_judge predicate }) }
    ensures apart { (xs : List T) (predicate : P) → P.IsAlwaysCallable predicate
        → IsCallableBy AreApart (by_predicate P.FnMut) (record { remainder = xs; judge = predicate_judge predicate }) }
{}

/// The same for a key function that may always be called.
pub fn always_callable_key<T, F: FnMut(&T) -> K, K: PartialEq + Drop>()
    ensures along { (xs : List T) (func : F) → F.IsAlwaysCallable func
        → IsCallableBy AreNeighbours (by_key F.FnMut K.eq) (record { remainder = xs; judge = key_judge func }) }
    ensures apart { (xs : List T) (func : F) → F.IsAlwaysCallable func
        → IsCallableBy AreApart (by_key F.FnMut K.eq) (record { remainder = xs; judge = key_judge func }) }
{}

/// A key function that may be called on each element of a slice may be asked about its neighbouring pairs (`along`), and about every
/// two different places in both orders (`apart`).
/// May change.
pub fn callable_on_elements<T, F: FnMut(&T) -> K, K: PartialEq + Drop>()
    ensures along { (xs : List T) (func : F) → IsCallableOn F.FnMut xs func
        → IsCallableBy AreNeighbours (by_key F.FnMut K.eq) (record { remainder = xs; judge = key_judge func }) }
    ensures apart { (xs : List T) (func : F) → IsCallableOn F.FnMut xs func
        → IsCallableBy AreApart (by_key F.FnMut K.eq) (record { remainder = xs; judge = key_judge func }) }
{}

/// If a key function computes a key of each element of a slice, the judge by key answers whether those keys are equal, of neighbouring
/// pairs (`along`) and of every two different places (`apart`).
/// May change.
pub fn computes_on_elements<T, F: FnMut(&T) -> K, K: PartialEq + Drop>()
    ensures along { (xs : List T) (key : T → K) (func : F) → ComputesOn F.FnMut xs key func
        → ComputesBy AreNeighbours (by_key F.FnMut K.eq)
        (record { remainder = xs; judge = key_judge func }) (λ x y. K.eq (key x) (key y)) }
    ensures apart { (xs : List T) (key : T → K) (func : F) → ComputesOn F.FnMut xs key func
        → ComputesBy AreApart (by_key F.FnMut K.eq)
        (record { remainder = xs; judge = key_judge func }) (λ x y. K.eq (key x) (key y)) }
{}

/// For a function that its calls leave unchanged, such as a closure that captures nothing by `&mut`. If it may be called on each
/// element now, a judge by its keys may be asked about neighbouring pairs (`along`) and about every two different places (`apart`).
/// The reference names the function's type.
/// May change.
pub fn callable_unchanged<T, F: FnMut(&T) -> K, K: PartialEq + Drop>(_f: &F)
    ensures along { (xs : List T) (f : F) → ((g h : F) (x : T) (k : K) → CalledAt F.FnMut g x k h → h ≡ g)
        → ((x : T) → Contains xs x → TakesAt F.FnMut f x)
        → IsCallableBy AreNeighbours (by_key F.FnMut K.eq) (record { remainder = xs; judge = key_judge f }) }
    ensures apart { (xs : List T) (f : F) → ((g h : F) (x : T) (k : K) → CalledAt F.FnMut g x k h → h ≡ g)
        → ((x : T) → Contains xs x → TakesAt F.FnMut f x)
        → IsCallableBy AreApart (by_key F.FnMut K.eq) (record { remainder = xs; judge = key_judge f }) }
{}

/// The same for a predicate that may be called on each neighbouring pair, or on every two different places, in both orders.
/// May change.
pub fn callable_unchanged_on_pairs<T, P: FnMut(&T, &T) -> bool>(_predicate: &P)
    ensures along { (xs : List T) (predicate : P) → ((f h : P) (x y : T) (b : Bool) → CalledAtTwo P.FnMut f x y b h → h ≡ f)
        → ((q : T × T) → AreNeighbours xs q → TakesAtTwo P.FnMut predicate q.0 q.1)
        → IsCallableBy AreNeighbours (by_predicate P.FnMut)
        (record { remainder = xs; judge = predicate_judge predicate }) }
    ensures apart { (xs : List T) (predicate : P) → ((f h : P) (x y : T) (b : Bool) → CalledAtTwo P.FnMut f x y b h → h ≡ f)
        → ((q : T × T) → AreApart xs q → TakesAtTwo P.FnMut predicate q.0 q.1)
        → IsCallableBy AreApart (by_predicate P.FnMut)
        (record { remainder = xs; judge = predicate_judge predicate }) }
{}

/// Both elements of a neighbouring pair, and those at two different places, are elements of the list.
pub fn pairs_are_elements<T>()
    ensures along { (xs : List T) (q : T × T) → AreNeighbours xs q → Contains xs q.0 × Contains xs q.1 }
    ensures apart { (xs : List T) (q : T × T) → AreApart xs q → Contains xs q.0 × Contains xs q.1 }
{}

/// If a predicate may be called in each of its states on each neighbouring pair of a slice, linear groups by it may be made (`along`).
/// If it may be called on any two different places, in both orders, binary and exponential ones may be (`apart`).
/// May change.
pub fn callable_on_pairs<T, P: FnMut(&T, &T) -> bool>()
    ensures along { (xs : List T) → ((p : P) (q : T × T) → AreNeighbours xs q → TakesAtTwo P.FnMut p q.0 q.1)
        → (predicate : P) → IsCallableBy AreNeighbours (by_predicate P.FnMut)
        (record { remainder = xs; judge = predicate_judge predicate }) }
    ensures apart { (xs : List T) → ((p : P) (q : T × T) → AreApart xs q → TakesAtTwo P.FnMut p q.0 q.1)
        → (predicate : P) → IsCallableBy AreApart (by_predicate P.FnMut)
        (record { remainder = xs; judge = predicate_judge predicate }) }
{}

/// If a predicate, in each of its states, answers a test on the neighbouring pairs of a slice, its judge answers the test there
/// (`along`); likewise on every two different places, in both orders (`apart`). What it answers elsewhere does not matter.
/// May change.
pub fn computes_on_pairs<T, P: FnMut(&T, &T) -> bool>()
    ensures along { (xs : List T) (p : T → T → Bool)
        → ((f h : P) (q : T × T) (b : Bool) → AreNeighbours xs q → CalledAtTwo P.FnMut f q.0 q.1 b h → b ≡ p q.0 q.1)
        → (predicate : P) → ComputesBy AreNeighbours (by_predicate P.FnMut)
        (record { remainder = xs; judge = predicate_judge predicate }) p }
    ensures apart { (xs : List T) (p : T → T → Bool)
        → ((f h : P) (q : T × T) (b : Bool) → AreApart xs q → CalledAtTwo P.FnMut f q.0 q.1 b h → b ≡ p q.0 q.1)
        → (predicate : P) → ComputesBy AreApart (by_predicate P.FnMut)
        (record { remainder = xs; judge = predicate_judge predicate }) p }
{}

/// A predicate of characters that may always be called may be asked about the neighbouring characters of every text.
pub fn always_callable_chars<P: FnMut(char, char) -> bool>()
    ensures { (cs : List ℕ) (predicate : P) → P.IsAlwaysCallable predicate
        → IsCallableBy AreNeighbours (by_char_predicate P.FnMut)
        (record { remainder = cs; judge = char_predicate_judge predicate }) }
{}

/// A key function of characters that may always be called may be asked about the neighbouring characters of every text.
/// May change.
pub fn always_callable_char_key<F: FnMut(char) -> K, K: PartialEq + Drop>()
    ensures { (cs : List ℕ) (func : F) → F.IsAlwaysCallable func
        → IsCallableBy AreNeighbours (by_char_key F.FnMut K.eq)
        (record { remainder = cs; judge = char_key_judge func }) }
{}

/// For a key function of characters that its calls leave unchanged: if it may be called on each character of a text now, its judge may
/// be asked about the neighbouring ones. The reference names the function's type.
/// May change.
pub fn callable_unchanged_char_key<F: FnMut(char) -> K, K: PartialEq + Drop>(_f: &F)
    ensures { (cs : List ℕ) (f : F) → ((g h : F) (c : ℕ) (k : K) → CalledAtChar F.FnMut g c k h → h ≡ g)
        → ((c : ℕ) → Contains cs c → Takes F.FnMut f (c, tt)) → IsCallableBy AreNeighbours (by_char_key F.FnMut K.eq)
        (record { remainder = cs; judge = char_key_judge f }) }
{}

/// The judge by `==` counts its questions.
/// May change.
pub fn equality_judges<T: PartialEq>()
    ensures { (j k : EqualityJudge) (n : ℕ) → IsRunOf (by_equality T.eq).may_ask (by_equality T.eq).answers n j k
        → k.asked ≡ j.asked + n }
{}

/// A comparator or a key function that may always be called may be called on the elements of every slice.
pub fn always_callable_on_elements<T, F: FnMut(&T) -> K, K>()
    ensures { (xs : List T) (f : F) → F.IsAlwaysCallable f → IsCallableOn F.FnMut xs f }
{}

/// A comparator or a key function that computes its answer from its argument alone does so on the elements of every slice. It
/// takes a reference to one, which names its type: the law is over all of its states.
pub fn always_computes<T, F: FnMut(&T) -> K, K>(_f: &F)
    ensures { (xs : List T) (answer : T → K) (f : F) → ComputesKey F.FnMut answer f → ComputesOn F.FnMut xs answer f }
{}
