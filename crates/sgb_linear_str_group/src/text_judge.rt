//! How a judge of characters finds a group of a text.
ghost use Rattle.std.specs.Prelude.{◌≡◌, [], MatchOption};
ghost use Rattle.std.specs.Str.{chars};
ghost use Rattle.sgb_split.specs.Calls.{IsCallableBy};
ghost use Rattle.sgb_split.specs.Split.{AreNeighbours};
ghost use Rattle.sgb_linear_str_group.specs.Texts.{IsTextAt};

use crate::scan::split_by_characters;
use sgb_split::end::End;
use sgb_split::judge::{CharKeyJudge, CharPredicateJudge, Judge};

/// A judge of characters that finds groups of a text.
///
/// `split_group` asks about one neighbouring pair after another. A judge may answer for many pairs at once in its place, with the
/// same answers.
pub trait TextJudge: Judge<char> {
    /// The group at the end of a text and the rest of the text, or `None` if the text is empty. It asks about neighbouring
    /// characters from that end on, up to the first pair that is refused. The left character comes first, from both ends.
    #[inline(always)]
    fn split_group<'a>(&mut self, end: End, text: &'a str) -> Option<(&'a str, &'a str)>
        requires { IsCallableBy AreNeighbours Self.Judge (record { remainder = chars text.now; judge = self.old }) }
        ensures { MatchOption result ((text.now ≡ []) × (self.new ≡ self.old))
            (λ x. IsTextAt Self.Judge end (record { text = text.now; judge = self.old }) x.0.now
            (record { text = x.1.now; judge = self.new })) }
    {
        split_by_characters(end, text, self)
    }
}

impl<P: FnMut(char, char) -> bool> TextJudge for CharPredicateJudge<P> {}

impl<K: PartialEq + Drop, F: FnMut(char) -> K> TextJudge for CharKeyJudge<F, K> {}
