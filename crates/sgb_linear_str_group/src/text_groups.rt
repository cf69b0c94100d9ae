//! Linear groups of a text for reading, over any judge of characters.
ghost use Rattle.std.specs.Prelude.{◌≡◌, ◌<◌, ◌+◌, ◌^◌, length, nat_eq, IfSome, IsTrue, ◌↔◌};
ghost use Rattle.sgb_split.specs.Calls.{IsCallableBy, StandsAt, at_start};
ghost use Rattle.sgb_split.specs.Split.{AreNeighbours};
ghost use Rattle.std.specs.Str.{IsCharBoundary};
ghost use Rattle.std.specs.Iterator.{UpTo};
ghost use Rattle.std.specs.Iterator.SizeHint.{IsWithinCount};
ghost use Rattle.sgb_split.specs.declared.end.End.TheVariants.{Front, Back};
ghost use Rattle.sgb_linear_str_group.specs.Texts.{in_characters, text_groups_of, text_groups_to_come};
ghost use Rattle.sgb_linear_str_group.specs.Texts.{place_or_end, text_between, text_place_of};

use crate::text_judge::TextJudge;
use sgb_split::end::End;
use std::iter::FusedIterator;

/// An iterator over the groups of a text, from both ends, that asks its judge about neighbouring characters.
///
/// Contracts see of it, as `text_groups_of`, the bytes that it has not handed out yet and its judge.
///
/// A call asks about the neighbouring characters of the remainder from its end on, the left one first from both ends, up
/// to the first pair that the judge refuses. So a group of g characters costs g questions, or g - 1 if nothing remains
/// after it, and takes time by its own length alone. A list of calls asks about no pair twice.
#[derive(Drop)]
#[must_use = "iterators are lazy and do nothing unless consumed"]
pub struct LinearStrGroups<'a, J> {
    string: &'a str,
    // The remainder lies from the byte `low` up to the byte `high`; it is empty where these do not lie between characters in
    // this order. That is tested at each call, since nothing is known of the places: an invariant of this struct would hide
    // from a caller what the judge's closure captured by `&mut`.
    low: usize,
    high: usize,
    pub(crate) judge: J,
}

// The part of a text between two places, and the empty text where they do not lie between characters in order. The end says only
// what is asked first.
#[inline(always)]
fn part<'a>(end: End, string: &'a str, low: usize, high: usize) -> &'a str
    ensures value { result.now ≡ text_between string.now low high }
    ensures fits { low + length result.now < 2 ^ 64 }
{
    // `get` tests the same, and was slower in groups of a character: an empty part needs no byte of the text here, and `low` is
    // tested where it is known to lie within, so that no length is compared again.
    if low < high && string.is_char_boundary(high) && is_boundary(end, &string[..high], low) {
        &string[low..high]
    } else {
        ""
    }
}

// Whether the lower place lies between characters, as `is_char_boundary` says. A walk from the back leaves it at 0, where no byte
// is looked at; from the front that would be one more test at each call.
#[inline(always)]
fn is_boundary(end: End, text: &str, place: usize) -> bool
    ensures { IsTrue result ↔ IsCharBoundary text.now place }
{
    match end {
        End::Front => text.is_char_boundary(place),
        End::Back => place == 0 || text.is_char_boundary(place),
    }
}

// The place, or the end of the text where that does not lie between characters.
#[inline]
fn place_or_end(text: &str, place: usize) -> usize
    ensures { result ≡ place_or_end text.now place }
{
    if text.is_char_boundary(place) {
        place
    } else {
        text.len()
    }
}

impl<'a, J> LinearStrGroups<'a, J> {
    // All groups of the text are still to come.
    #[inline]
    pub(crate) fn with_judge(string: &'a str, judge: J) -> Self
        ensures text { (text_groups_of result).text ≡ string.now }
        ensures place { text_place_of result ≡ at_start string.now }
        ensures judge { result.judge ≡ judge }
    {
        LinearStrGroups {
            string,
            low: 0,
            high: string.len(),
            judge,
        }
    }

    /// The characters that no call has handed out yet.
    #[inline]
    pub fn as_str(&self) -> &'a str
        ensures { result.now ≡ (text_groups_of self.now).text }
    {
        part(End::Front, self.string, self.low, self.high)
    }

    /// The byte at which the remainder begins in the text: how many bytes calls at the front have handed out. The next group at
    /// the front begins there, and the last one from the back began `remainder_len` bytes behind it. It lies between characters.
    ///
    /// ```
    /// let mut groups = LinearStrGroup::new("aaaabbbbb饰饰cccc");
    /// groups.next();   // Some("aaaa")
    /// groups.offset(); // 4
    /// ```
    #[inline]
    pub fn offset(&self) -> usize
        ensures offset { result ≡ (text_place_of self.now).offset }
        ensures stands { StandsAt (text_place_of self.now) (text_groups_of self.now).text }
        ensures boundary { IsCharBoundary (text_place_of self.now).input result }
        ensures fits { result + length (text_groups_of self.now).text < 2 ^ 64 }
    {
        place_or_end(self.string, self.low)
    }

    /// How many bytes no call has handed out yet.
    #[inline]
    pub fn remainder_len(&self) -> usize
        ensures { result ≡ length (text_groups_of self.now).text }
    {
        self.as_str().len()
    }

    /// Whether all characters are handed out.
    #[inline]
    pub fn is_empty(&self) -> bool
        ensures { result ≡ nat_eq (length (text_groups_of self.now).text) 0 }
    {
        self.remainder_len() == 0
    }
}

impl<'a, J: TextJudge + Drop> Iterator for LinearStrGroups<'a, J> {
    type Item = &'a str;

    ghost use Rattle.sgb_linear_str_group.specs.Texts.{GivesText};

    ghost can_next = { λ s. IsCallableBy AreNeighbours J.Judge (in_characters (text_groups_of s)) };

    ghost next_gives = { GivesText J.Judge Front };

    ghost remaining = { λ s. text_groups_to_come (text_groups_of s) };

    /// The first group of the remainder, or `None` where nothing remains. For a group of g characters it asks g questions, or
    /// g - 1 where nothing remains after it.
    #[inline(always)]
    fn next(&mut self) -> Option<&'a str> {
        self.next_at(End::Front)
    }

    /// `(0, None)`, as in the Rust crate: it says nothing about how many groups remain.
    #[inline]
    fn size_hint(&self) -> (usize, Option<usize>)
        ensures value { result ≡ (0, None) }
        ensures lower { IsWithinCount result.0 (text_groups_to_come (text_groups_of self.now)) }
        ensures upper { IfSome result.1 (UpTo (text_groups_to_come (text_groups_of self.now))) }
    {
        (0, None)
    }
}

impl<'a, J: TextJudge + Drop> DoubleEndedIterator for LinearStrGroups<'a, J> {
    ghost use Rattle.sgb_linear_str_group.specs.Texts.{GivesText};

    ghost can_next_back = { λ s. IsCallableBy AreNeighbours J.Judge (in_characters (text_groups_of s)) };

    ghost next_back_gives = { GivesText J.Judge Back };

    /// The last group of the remainder, or `None` where nothing remains. For a group of g characters it asks g questions, or
    /// g - 1 where nothing remains before it.
    #[inline(always)]
    fn next_back(&mut self) -> Option<&'a str> {
        self.next_at(End::Back)
    }
}

impl<'a, J: TextJudge + Drop> FusedIterator for LinearStrGroups<'a, J> {}

impl<'a, J: TextJudge + Drop> LinearStrGroups<'a, J> {
    ghost use Rattle.sgb_linear_str_group.specs.Texts.{GivesText};

    /// The last group of the remainder, or `None` where nothing remains: what `next_back` gives. The iterator is given up.
    ///
    /// It asks what `next_back` asks, which leads the judge to some state `t`. That it asks nothing more was reviewed by hand.
    /// `Iterator::last` walks all groups from the front; this one scans the last group alone.
    #[inline]
    pub fn last(mut self) -> Option<&'a str>
        requires { IsCallableBy AreNeighbours J.Judge (in_characters (text_groups_of self)) }
        ensures { (t : LinearStrGroups J) × GivesText J.Judge Back self.entry result t }
    {
        self.next_back()
    }
}

impl<'a, J: TextJudge> LinearStrGroups<'a, J> {
    ghost use Rattle.sgb_linear_str_group.specs.Texts.{GivesText};

    /// For the libraries alone: what `next` gives from the front and `next_back` from the back, by their questions.
    // Public for `GroupQueue`, which asks for no `Drop`. Each caller names its end, and gets a copy for that end alone.
    #[inline(always)]
    pub fn next_at(&mut self, end: End) -> Option<&'a str>
        requires { IsCallableBy AreNeighbours J.Judge (in_characters (text_groups_of self.old)) }
        ensures gives { GivesText J.Judge end self.old result self.new }
        ensures callable { IsCallableBy AreNeighbours J.Judge (in_characters (text_groups_of self.new)) }
    {
        let rest = part(end, self.string, self.low, self.high);
        let (group, left) = self.judge.split_group(end, rest)?;
        match end {
            End::Front => self.low += group.len(),
            End::Back => self.high = self.low + left.len(),
        }
        Some(group)
    }
}
