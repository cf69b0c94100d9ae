//! Groups of texts: walks by closures of characters, and the first run.
ghost use Rattle.std.specs.Prelude.{◌≡◌, ℕ, Bool, length, map, option_map, nat_eq, nat_lt};
ghost use Rattle.std.specs.Str.{chars};
ghost use Rattle.std.proofs.Math.Utf8.{encodes};
ghost use Rattle.slice_group_by.specs.Judges.{ComputesOnChars, ComputesCharKey};
ghost use Rattle.slice_group_by.specs.Split.{split};
ghost use Rattle.slice_group_by.specs.Queue.{pops};

use slice_group_by::laws::{always_callable_char_key, always_callable_chars, texts_join};
use slice_group_by::{
    End, LinearStrGroup, LinearStrGroupBy, LinearStrGroupByKey, StrGroupBy, walk,
};

/// Calls at these ends answer as the two-ended queue of the pieces of the split of the characters, by characters and by bytes.
pub fn equal_runs<'a>(text: &'a str, ends: &[End], out: &mut [Option<&'a str>])
    requires { length out.old ≡ length ends.now }
    ensures characters { map (option_map (λ group. chars group.now)) out.new
        ≡ pops (split nat_eq (chars text.now)) ends.now }
    ensures bytes { map (option_map (λ group. group.now)) out.new
        ≡ map (option_map encodes) (pops (split nat_eq (chars text.now)) ends.now) }
{
    let mut groups = LinearStrGroup::new(text);
    texts_join(&groups);
    walk(&mut groups, ends, out);
}

/// A walk by a test that is not symmetric.
pub fn ascending<'a>(text: &'a &str, ends: &[End], out: &mut [Option<&'a str>])
    requires { length out.old ≡ length ends.now }
    ensures { map (option_map (λ group. chars group.now)) out.new
        ≡ pops (split nat_lt (chars text.now.now)) ends.now }
{
    let mut groups = text.linear_group_by(|a, b| a < b);
    walk(&mut groups, ends, out);
}

/// A walk by any predicate that may always be called.
pub fn groups_by<'a, P: FnMut(char, char) -> bool>(
    text: &'a str,
    predicate: P,
    ends: &[End],
    out: &mut [Option<&'a str>],
)
    requires len { length out.old ≡ length ends.now }
    requires callable { P.IsAlwaysCallable predicate }
    ensures { (p : ℕ → ℕ → Bool) → ComputesOnChars P.FnMut p predicate
        → map (option_map (λ group. chars group.now)) out.new ≡ pops (split p (chars text.now)) ends.now }
{
    always_callable_chars::<P>();
    let mut groups = LinearStrGroupBy::new(text, predicate);
    walk(&mut groups, ends, out);
}

/// A walk by any key function that may always be called.
pub fn groups_by_key<'a, F: FnMut(char) -> K, K: PartialEq + Drop>(
    text: &'a str,
    func: F,
    ends: &[End],
    out: &mut [Option<&'a str>],
)
    requires len { length out.old ≡ length ends.now }
    requires callable { F.IsAlwaysCallable func }
    ensures { (key : ℕ → K) → ComputesCharKey F.FnMut key func
        → map (option_map (λ group. chars group.now)) out.new
        ≡ pops (split (λ a b. K.eq (key a) (key b)) (chars text.now)) ends.now }
{
    always_callable_char_key::<F, K>();
    let mut groups = LinearStrGroupByKey::new(text, func);
    walk(&mut groups, ends, out);
}
