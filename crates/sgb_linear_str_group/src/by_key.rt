//! Linear groups of a text by a key: for reading and, as bytes, for writing.
ghost use Rattle.std.specs.Prelude.{◌≡◌, ℕ, ◌<◌, Some, length, slice_get};
ghost use Rattle.std.specs.Fn.{Takes};
ghost use Rattle.sgb_split.specs.Calls.{IsCallableBy, at_start};
ghost use Rattle.sgb_split.specs.Split.{AreNeighbours};
ghost use Rattle.std.specs.Str.{IsUtf8, chars};
ghost use Rattle.sgb_split.specs.Judges.{by_char_key, char_key_judge, CalledAtChar, ComputesCharKey};
ghost use Rattle.sgb_linear_str_group.specs.Texts.{text_groups_of, text_place_of, IsSettledText, in_characters};
ghost use Rattle.sgb_linear_str_group.specs.TextsMut.{text_groups_of_mut};
ghost use Rattle.sgb_loans.specs.Loans.{NothingOut};

use crate::text_groups::LinearStrGroups;
use crate::text_groups_mut::{LinearStrGroupsMut, text_of};
use sgb_split::judge::CharKeyJudge;

/// An iterator over the groups of a text by a key: a question is a call of the key function on the left character, then one
/// on the right, then `==` of the keys.
///
/// ```
/// let mut groups = LinearStrGroupByKey::new("ab12é", |c| c.is_ascii_digit());
/// groups.next();      // Some("ab")
/// groups.next_back(); // Some("é")
/// groups.next();      // Some("12")
/// ```
pub type LinearStrGroupByKey<'a, F, K> = LinearStrGroups<'a, CharKeyJudge<F, K>>;

/// An iterator over the groups of a text's bytes by a key for writing.
///
/// A question is a call of the key function on the left character, then one on the right, then `==` of the keys. It sees the
/// characters as they are when the call is made.
///
/// ```
/// let mut bytes = *b"ab12";
/// let mut groups = LinearStrGroupByKeyMut::new(&mut bytes, |c| c.is_ascii_digit());
/// if let Some(group) = groups.next() {
///     group.make_ascii_uppercase(); // bytes is b"AB12"
/// }
/// ```
pub type LinearStrGroupByKeyMut<'a, F, K> = LinearStrGroupsMut<'a, CharKeyJudge<F, K>>;

impl<'a, K: PartialEq + Drop, F: FnMut(char) -> K> LinearStrGroups<'a, CharKeyJudge<F, K>> {
    /// All groups of the text by the key, which are still to come. Nothing is asked yet.
    ///
    /// The key function must be callable on the two characters of each neighbouring pair of the text, the left one first, in
    /// whatever state earlier calls left it. A text of at most one character needs no condition. A closure whose body may run
    /// on all characters, in every state, meets this at once.
    ///
    /// If the function is handed to you, take `F.IsAlwaysCallable func` as a `requires`, call `laws::always_callable_char_key`,
    /// and answer with `c.always_callable_char_key.ensures _ _ c.requires`.
    ///
    /// The result is settled for equality of the keys that the function computes.
    #[inline]
    pub fn new(string: &'a str, func: F) -> Self
        requires { IsCallableBy AreNeighbours (by_char_key F.FnMut K.eq)
            (in_characters (record { text = string.now; judge = char_key_judge func })) }
        ensures text { (text_groups_of result).text ≡ string.now }
        ensures place { text_place_of result ≡ at_start string.now }
        ensures judge { result.judge ≡ char_key_judge func }
        ensures callable { IsCallableBy AreNeighbours (by_char_key F.FnMut K.eq)
            (in_characters (text_groups_of result)) }
        ensures settled { (key : ℕ → K) → ComputesCharKey F.FnMut key func
            → IsSettledText (by_char_key F.FnMut K.eq) (text_groups_of result) (λ x y. K.eq (key x) (key y)) }
    {
        LinearStrGroups::with_judge(string, CharKeyJudge::new(func))
    }

    /// The key of a character: one call of the key function.
    ///
    /// Groups may still be asked for if the function may always be called. If it computes a key, the groups are settled for equality
    /// of its keys.
    #[inline]
    pub fn key_of(&mut self, character: char) -> K
        requires { Takes F.FnMut self.old.judge.func (character, tt) }
        ensures called { CalledAtChar F.FnMut self.old.judge.func character result self.new.judge.func }
        ensures text { (text_groups_of self.new).text ≡ (text_groups_of self.old).text }
        ensures place { text_place_of self.new ≡ text_place_of self.old }
        ensures always { F.IsAlwaysCallable self.old.judge.func → F.IsAlwaysCallable self.new.judge.func }
        ensures callable { F.IsAlwaysCallable self.old.judge.func
            → IsCallableBy AreNeighbours (by_char_key F.FnMut K.eq) (in_characters (text_groups_of self.new)) }
        ensures key { (key : ℕ → K) → ComputesCharKey F.FnMut key self.old.judge.func → result ≡ key character }
        ensures computes { (key : ℕ → K) → ComputesCharKey F.FnMut key self.old.judge.func
            → ComputesCharKey F.FnMut key self.new.judge.func }
        ensures settled { (key : ℕ → K) → ComputesCharKey F.FnMut key self.old.judge.func
            → IsSettledText (by_char_key F.FnMut K.eq) (text_groups_of self.new) (λ x y. K.eq (key x) (key y)) }
    {
        (self.judge.func)(character)
    }
}

impl<'a, K: PartialEq + Drop, F: FnMut(char) -> K> LinearStrGroupsMut<'a, CharKeyJudge<F, K>> {
    /// All groups of the bytes by the key, which are still to come. Nothing is asked yet, and nothing is out.
    ///
    /// The bytes have to be UTF-8, which `std::str::from_utf8` tests. Those of a literal are known to be, and those copied from
    /// a `&str`; those of a `String` are, once it was looked at by `as_str`. It requires of
    /// the key function what `LinearStrGroupByKey::new` requires, of the characters as they are now.
    #[inline]
    pub fn new(bytes: &'a mut [u8], func: F) -> Self
        requires utf8 { IsUtf8 bytes.old }
        requires callable { IsCallableBy AreNeighbours (by_char_key F.FnMut K.eq)
            (in_characters (record { text = bytes.old; judge = char_key_judge func })) }
        ensures text { result.text ≡ bytes.old }
        ensures judge { result.judge ≡ char_key_judge func }
        ensures callable { IsCallableBy AreNeighbours (by_char_key F.FnMut K.eq)
            (in_characters (text_groups_of_mut result)) }
        ensures settled { (key : ℕ → K) → ComputesCharKey F.FnMut key func
            → IsSettledText (by_char_key F.FnMut K.eq) (text_groups_of_mut result) (λ x y. K.eq (key x) (key y)) }
        ensures loans { NothingOut bytes.entry.ghost_name result.loans }
    {
        LinearStrGroupsMut::with_judge(bytes, CharKeyJudge::new(func))
    }

    /// The key of the first character of a group: one call of the key function.
    ///
    /// Groups may still be asked for if the function may always be called. If it computes a key, the groups are settled for equality
    /// of its keys.
    #[inline]
    pub fn first_key_of(&mut self, group: &[u8]) -> K
        requires utf8 { IsUtf8 group.now }
        requires nonempty { 0 < length (chars group.now) }
        requires callable { (c : ℕ) → slice_get (chars group.now) 0 ≡ Some c
            → Takes F.FnMut self.old.judge.func (c, tt) }
        ensures called { (c : ℕ) × (slice_get (chars group.now) 0 ≡ Some c)
            × CalledAtChar F.FnMut self.old.judge.func c result self.new.judge.func }
        ensures text { self.new.text ≡ self.old.text }
        ensures loans { self.new.loans ≡ self.old.loans }
        ensures always { F.IsAlwaysCallable self.old.judge.func → F.IsAlwaysCallable self.new.judge.func }
        ensures callable { F.IsAlwaysCallable self.old.judge.func
            → IsCallableBy AreNeighbours (by_char_key F.FnMut K.eq) (in_characters (text_groups_of_mut self.new)) }
        ensures key { (key : ℕ → K) (c : ℕ) → slice_get (chars group.now) 0 ≡ Some c
            → ComputesCharKey F.FnMut key self.old.judge.func → result ≡ key c }
        ensures computes { (key : ℕ → K) → ComputesCharKey F.FnMut key self.old.judge.func
            → ComputesCharKey F.FnMut key self.new.judge.func }
        ensures settled { (key : ℕ → K) → ComputesCharKey F.FnMut key self.old.judge.func
            → IsSettledText (by_char_key F.FnMut K.eq) (text_groups_of_mut self.new) (λ x y. K.eq (key x) (key y)) }
    {
        let Some(first) = text_of(group).chars().next() else {
            unreachable!()
        };
        (self.judge.func)(first)
    }
}
