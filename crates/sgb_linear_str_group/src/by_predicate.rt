//! Linear groups of a text by a predicate: for reading and, as bytes, for writing.
ghost use Rattle.std.specs.Prelude.{◌≡◌, ℕ, Bool};
ghost use Rattle.sgb_split.specs.Calls.{IsCallableBy, at_start};
ghost use Rattle.sgb_split.specs.Split.{AreNeighbours};
ghost use Rattle.std.specs.Str.{IsUtf8};
ghost use Rattle.sgb_split.specs.Judges.{by_char_predicate, char_predicate_judge, ComputesOnChars};
ghost use Rattle.sgb_linear_str_group.specs.Texts.{text_groups_of, text_place_of, IsSettledText, in_characters};
ghost use Rattle.sgb_linear_str_group.specs.TextsMut.{text_groups_of_mut};
ghost use Rattle.sgb_loans.specs.Loans.{NothingOut};

use crate::text_groups::LinearStrGroups;
use crate::text_groups_mut::LinearStrGroupsMut;
use sgb_split::judge::CharPredicateJudge;

/// An iterator over the groups of a text by a predicate, which is asked about neighbouring characters, the left one first
/// from both ends.
///
/// ```
/// let mut groups = LinearStrGroupBy::new("abcab", |a, b| a < b);
/// groups.next_back(); // Some("ab")
/// groups.next_back(); // Some("abc")
/// groups.next_back(); // None
/// ```
pub type LinearStrGroupBy<'a, P> = LinearStrGroups<'a, CharPredicateJudge<P>>;

/// An iterator over the groups of a text's bytes by a predicate for writing, which is asked about neighbouring characters,
/// the left one first from both ends, as they are when the call is made.
///
/// ```
/// let mut bytes = *b"abcab";
/// let mut groups = LinearStrGroupByMut::new(&mut bytes, |a, b| a < b);
/// if let Some(group) = groups.next_back() {
///     group.fill(b'-'); // bytes is b"abc--"
/// }
/// ```
pub type LinearStrGroupByMut<'a, P> = LinearStrGroupsMut<'a, CharPredicateJudge<P>>;

impl<'a, P: FnMut(char, char) -> bool> LinearStrGroups<'a, CharPredicateJudge<P>> {
    /// All groups of the text by the predicate, which are still to come. Nothing is asked yet.
    ///
    /// The predicate must be callable on each pair of neighbouring characters of the text, the left one first, in whatever
    /// state earlier calls left it. A text of at most one character needs no condition. A closure whose body may run on all
    /// characters, in every state, meets this at once.
    ///
    /// If the closure is handed to you, take `P.IsAlwaysCallable predicate` as a `requires`, and call
    /// `laws::always_callable_chars`.
    ///
    /// The result is settled for each test that the predicate computes.
    #[inline]
    pub fn new(string: &'a str, predicate: P) -> Self
        requires { IsCallableBy AreNeighbours (by_char_predicate P.FnMut)
            (in_characters (record { text = string.now; judge = char_predicate_judge predicate })) }
        ensures text { (text_groups_of result).text ≡ string.now }
        ensures place { text_place_of result ≡ at_start string.now }
        ensures judge { result.judge ≡ char_predicate_judge predicate }
        ensures callable { IsCallableBy AreNeighbours (by_char_predicate P.FnMut)
            (in_characters (text_groups_of result)) }
        ensures settled { (p : ℕ → ℕ → Bool) → ComputesOnChars P.FnMut p predicate
            → IsSettledText (by_char_predicate P.FnMut) (text_groups_of result) p }
    {
        LinearStrGroups::with_judge(string, CharPredicateJudge { predicate })
    }
}

impl<'a, P: FnMut(char, char) -> bool> LinearStrGroupsMut<'a, CharPredicateJudge<P>> {
    /// All groups of the bytes by the predicate, which are still to come. Nothing is asked yet, and nothing is out.
    ///
    /// The bytes have to be UTF-8, which `std::str::from_utf8` tests. Those of a literal are known to be, and those copied from
    /// a `&str`; those of a `String` are, once it was looked at by `as_str`. It requires of
    /// the predicate what `LinearStrGroupBy::new` requires, of the characters as they are now.
    #[inline]
    pub fn new(bytes: &'a mut [u8], predicate: P) -> Self
        requires utf8 { IsUtf8 bytes.old }
        requires callable { IsCallableBy AreNeighbours (by_char_predicate P.FnMut)
            (in_characters (record { text = bytes.old; judge = char_predicate_judge predicate })) }
        ensures text { result.text ≡ bytes.old }
        ensures judge { result.judge ≡ char_predicate_judge predicate }
        ensures callable { IsCallableBy AreNeighbours (by_char_predicate P.FnMut)
            (in_characters (text_groups_of_mut result)) }
        ensures settled { (p : ℕ → ℕ → Bool) → ComputesOnChars P.FnMut p predicate
            → IsSettledText (by_char_predicate P.FnMut) (text_groups_of_mut result) p }
        ensures loans { NothingOut bytes.entry.ghost_name result.loans }
    {
        LinearStrGroupsMut::with_judge(bytes, CharPredicateJudge { predicate })
    }
}
