//! Groups of equal characters: those of ASCII are found by their bytes, many at a time.
ghost use Rattle.std.specs.Prelude.{◌≡◌, ◌≢◌, ◌+◌, ◌<◌, [], MatchOption};
ghost use Rattle.sgb_linear_str_group.specs.Copies.{IsCutAtCopies, outermost_byte};

use crate::scan::split_by_characters;
use crate::text_judge::TextJudge;
use sgb_numbers::scans::{first_like, last_like};
use sgb_split::end::End;
use sgb_split::judge::EqualityJudge;

/// Where the character at the end is one of ASCII, and so one byte, its neighbours are equal to it as long as their bytes are. Each
/// such byte answers one question.
impl TextJudge for EqualityJudge {
    #[inline(always)]
    fn split_group<'a>(&mut self, end: End, text: &'a str) -> Option<(&'a str, &'a str)> {
        if !outermost(end, text.as_bytes())?.is_ascii() {
            return split_by_characters(end, text, self);
        }
        let (group, rest) = split_copies(end, text);
        let questions = if rest.is_empty() {
            group.len() - 1
        } else {
            group.len()
        };
        count(self, questions);
        Some((group, rest))
    }
}

/// The byte at the end, if there is one.
#[inline(always)]
fn outermost(end: End, bytes: &[u8]) -> Option<u8>
    ensures { MatchOption result (bytes.now ≡ []) (λ byte. (bytes.now ≢ []) × (byte ≡ outermost_byte end bytes.now)) }
{
    match end {
        End::Front => bytes.first().copied(),
        End::Back => bytes.last().copied(),
    }
}

/// The copies of a byte of ASCII at the end of a text, and the rest of the text.
#[inline(always)]
fn split_copies<'a>(end: End, text: &'a str) -> (&'a str, &'a str)
    requires nonempty { text.now ≢ [] }
    requires ascii { outermost_byte end text.now < 128 }
    ensures { IsCutAtCopies end text.now result.0.now result.1.now }
{
    let bytes = text.as_bytes();
    let len = bytes.len();
    match end {
        End::Front => text.split_at(first_like(bytes, 0, len)),
        End::Back => {
            let (rest, group) = text.split_at(len - last_like(bytes, 0, len));
            (group, rest)
        }
    }
}

/// Counts so many questions, for contracts alone: the compiler leaves nothing of it.
#[inline(always)]
fn count(judge: &mut EqualityJudge, questions: usize)
    ensures { judge.new.asked ≡ judge.old.asked + questions }
{
    for _ in 0..questions {
        *judge = EqualityJudge::one_more(judge);
    }
}
