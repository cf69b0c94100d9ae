//! Linear groups of equal characters of a text: for reading and, as bytes, for writing.
ghost use Rattle.std.specs.Prelude.{◌≡◌, nat_eq};
ghost use Rattle.sgb_split.specs.Calls.{IsCallableBy, at_start};
ghost use Rattle.sgb_split.specs.Split.{AreNeighbours};
ghost use Rattle.std.specs.Str.{IsUtf8};
ghost use Rattle.sgb_split.specs.Judges.{by_equality};
ghost use Rattle.sgb_linear_str_group.specs.Texts.{text_groups_of, text_place_of, IsSettledText, in_characters};
ghost use Rattle.sgb_linear_str_group.specs.TextsMut.{text_groups_of_mut};
ghost use Rattle.sgb_loans.specs.Loans.{NothingOut};

use crate::text_groups::LinearStrGroups;
use crate::text_groups_mut::LinearStrGroupsMut;
use sgb_split::judge::EqualityJudge;

/// An iterator over the groups of equal characters of a text, by `==` of neighbours. Those of ASCII are found by their bytes, up to
/// sixteen at a time; each still counts as one question.
///
/// ```
/// let mut groups = LinearStrGroup::new("aaaabbbbb饰饰cccc");
/// groups.next();      // Some("aaaa")
/// groups.next_back(); // Some("cccc")
/// groups.as_str();    // "bbbbb饰饰"
/// ```
pub type LinearStrGroup<'a> = LinearStrGroups<'a, EqualityJudge>;

/// An iterator over the groups of equal characters of a text's bytes for writing, by `==` of neighbours.
///
/// ```
/// let mut bytes = *b"aab";
/// let mut groups = LinearStrGroupMut::new(&mut bytes);
/// if let Some(group) = groups.next() {
///     group.fill(b'-'); // bytes is b"--b"
/// }
/// ```
pub type LinearStrGroupMut<'a> = LinearStrGroupsMut<'a, EqualityJudge>;

impl<'a> LinearStrGroups<'a, EqualityJudge> {
    /// All groups of equal characters of the text, which are still to come. Nothing is asked yet.
    #[inline]
    pub fn new(string: &'a str) -> Self
        ensures text { (text_groups_of result).text ≡ string.now }
        ensures place { text_place_of result ≡ at_start string.now }
        ensures asked { result.judge.asked ≡ 0 }
        ensures callable { IsCallableBy AreNeighbours (by_equality nat_eq) (in_characters (text_groups_of result)) }
        ensures settled { IsSettledText (by_equality nat_eq) (text_groups_of result) nat_eq }
    {
        LinearStrGroups::with_judge(string, EqualityJudge::new())
    }
}

impl<'a> LinearStrGroupsMut<'a, EqualityJudge> {
    /// All groups of equal characters of the bytes, which are still to come. Nothing is asked yet, and nothing is out.
    ///
    /// The bytes have to be UTF-8, which `std::str::from_utf8` tests. Those of a literal are known to be, and those copied from
    /// a `&str`; those of a `String` are, once it was looked at by `as_str`.
    #[inline]
    pub fn new(bytes: &'a mut [u8]) -> Self
        requires { IsUtf8 bytes.old }
        ensures text { result.text ≡ bytes.old }
        ensures asked { result.judge.asked ≡ 0 }
        ensures callable { IsCallableBy AreNeighbours (by_equality nat_eq) (in_characters (text_groups_of_mut result)) }
        ensures settled { IsSettledText (by_equality nat_eq) (text_groups_of_mut result) nat_eq }
        ensures loans { NothingOut bytes.entry.ghost_name result.loans }
    {
        LinearStrGroupsMut::with_judge(bytes, EqualityJudge::new())
    }
}
