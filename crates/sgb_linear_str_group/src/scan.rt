//! The scan that finds a group of characters, over any judge.
ghost use Rattle.std.specs.Prelude.{◌≡◌, ◌<◌, [], ◌++◌, length, take, MatchOption};
ghost use Rattle.sgb_split.specs.Calls.{IsCallableBy};
ghost use Rattle.std.specs.Str.{chars, IsUtf8, IsCharBoundary};
ghost use Rattle.std.specs.Str.Iter.{chars_rest};
ghost use Rattle.std.specs.Char.{encode_utf8, IsScalar};
ghost use Rattle.sgb_split.specs.Split.{put_at, AreNeighbours};
ghost use Rattle.sgb_linear_str_group.specs.Texts.{IsTextAt};

use sgb_split::end::End;
use sgb_split::judge::Judge;
use std::str::Chars;

/// The group at the end of a text and the rest of the text, or `None` where the text is empty: one question after another.
#[inline(always)]
pub(crate) fn split_by_characters<'a, J: Judge<char>>(
    end: End,
    text: &'a str,
    judge: &mut J,
) -> Option<(&'a str, &'a str)>
    requires { IsCallableBy AreNeighbours J.Judge (record { remainder = chars text.now; judge = judge.old }) }
    ensures { MatchOption result ((text.now ≡ []) × (judge.new ≡ judge.old))
        (λ x. IsTextAt J.Judge end (record { text = text.now; judge = judge.old }) x.0.now
        (record { text = x.1.now; judge = judge.new })) }
{
    let mut characters = text.chars();
    let mut innermost = next_character(end, &mut characters)?;
    // What is left beyond `innermost`. While a question is asked, `characters` has taken off one character more.
    let mut rest = characters.as_str();
    while let Some(beyond) = next_character(end, &mut characters) {
        let (left, right) = match end {
            End::Front => (innermost, beyond),
            End::Back => (beyond, innermost),
        };
        let together = judge.ask(&left, &right);
        if !together {
            break;
        }
        innermost = beyond;
        rest = characters.as_str();
    }
    let group = match end {
        End::Front => &text[..text.len() - rest.len()],
        End::Back => &text[rest.len()..],
    };
    Some((group, rest))
}

/// Takes off the next character at the end, or gives `None` where none is left.
#[inline(always)]
fn next_character(end: End, characters: &mut Chars<'_>) -> Option<char>
    requires { IsUtf8 (chars_rest characters.old) }
    ensures { MatchOption result (chars_rest characters.old ≡ [])
        (λ c. (chars_rest characters.old ≡ put_at end (encode_utf8 c) (chars_rest characters.new))
        × IsUtf8 (chars_rest characters.new)) }
{
    match end {
        End::Front => characters.next(),
        End::Back => {
            let text = characters.as_str();
            if text.is_empty() {
                return None;
            }
            let (start, code) = last_code(text);
            *characters = text[..start].chars();
            Some(char::from_u32(code).unwrap())
        }
    }
}

/// The byte at which the last character of a text that is not empty begins, and its code, read from its last byte on. The
/// standard library's `chars` finds where it begins first, so that in a walk from the back each character waits for another.
#[inline(always)]
fn last_code(text: &str) -> (usize, u32)
    requires { 0 < length text.now }
    ensures scalar { IsScalar result.1 }
    ensures boundary { IsCharBoundary text.now result.0 }
    ensures is { text.now ≡ take result.0 text.now ++ encode_utf8 result.1 }
{
    let bytes = text.as_bytes();
    let len = bytes.len();
    // The bytes from the end on. Those after the first of a character are below 0xC0, and hold six bits of it.
    let last = u32::from(bytes[len - 1]);
    if last < 0x80 {
        return (len - 1, last);
    }
    let second = u32::from(bytes[len - 2]);
    if second >= 0xC0 {
        return (len - 2, second % 32 * 64 + last % 64);
    }
    let third = u32::from(bytes[len - 3]);
    if third >= 0xC0 {
        return (len - 3, third % 16 * 4096 + second % 64 * 64 + last % 64);
    }
    let fourth = u32::from(bytes[len - 4]);
    (
        len - 4,
        fourth % 8 * 262_144 + third % 64 * 4096 + second % 64 * 64 + last % 64,
    )
}
