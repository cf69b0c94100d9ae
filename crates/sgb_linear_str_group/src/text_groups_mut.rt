//! Linear groups of a text's bytes for writing, over any judge of characters.
ghost use Rattle.std.specs.Prelude.{◌≡◌, ◌<◌, [], ◌∷◌, ◌++◌, drop, length, nat_eq, IfSome};
ghost use Rattle.sgb_split.specs.Calls.{IsCallableBy};
ghost use Rattle.std.specs.Iterator.{UpTo};
ghost use Rattle.std.specs.Iterator.SizeHint.{IsWithinCount};
ghost use Rattle.std.specs.Str.{IsUtf8};
ghost use Rattle.sgb_split.specs.declared.end.End.TheVariants.{Front, Back};
ghost use Rattle.sgb_split.specs.Split.{AreNeighbours};
ghost use Rattle.sgb_loans.specs.Loans.{NothingOut};
ghost use Rattle.sgb_linear_str_group.specs.Texts.{in_characters};
ghost use Rattle.sgb_linear_str_group.specs.TextsMut.{TextGroupsMut, text_groups_mut_to_come};

use crate::text_judge::TextJudge;
use sgb_loans::loans::{Ended, Last, Loans};
use sgb_split::end::End;
use std::iter::FusedIterator;
use std::marker::Model;
use std::mem;

/// An iterator over the groups of a text's bytes for writing, from both ends, that asks its judge about neighbouring
/// characters.
///
/// It asks what `LinearStrGroups` asks, and gives the bytes of the same groups. A group is UTF-8 when it is handed out; any
/// bytes may be written into it then, and what remains is UTF-8 all the same.
///
/// Contracts also see which parts of the input are out (`loans`): take note of each group in the order in which the groups
/// came, by `note_front` and `note_back`, and then `finish` says what the whole input ends as. These calls ask nothing and
/// run no code but moves.
#[derive(Drop)]
#[must_use = "iterators are lazy and do nothing unless consumed"]
pub struct LinearStrGroupsMut<'a, J> {
    bytes: &'a mut [u8],
    pub(crate) judge: J,
    loans: Loans<u8>,
}

impl<'a, J> Model for LinearStrGroupsMut<'a, J> {
    ghost use Rattle.std.specs.Prelude.{◌≡◌};
    ghost use Rattle.std.specs.Str.{IsUtf8};
    ghost use Rattle.sgb_linear_str_group.specs.TextsMut.{TextGroupsMut};

    ghost Value = { TextGroupsMut J };

    ghost view = { λ s. record { text = s.bytes.now; judge = s.judge; loans = s.loans } };

    ghost invariant = { λ s. record { utf8 : IsUtf8 s.bytes.now; rest : s.loans.rest ≡ s.bytes.ghost_name } };
}

// Bytes that are known to be UTF-8, as a text.
#[inline]
pub(crate) fn text_of(bytes: &[u8]) -> &str
    requires { IsUtf8 bytes.now }
    ensures { result.now ≡ bytes.now }
{
    // `from_utf8` would read all that remains at each call, and so a walk would take quadratic time. The condition of
    // `from_utf8_unchecked` is this function's own, which each of its callers is proved to meet.
    unsafe { std::str::from_utf8_unchecked(bytes) }
}

impl<'a, J> LinearStrGroupsMut<'a, J> {
    // All groups of the bytes are still to come.
    #[inline]
    pub(crate) fn with_judge(bytes: &'a mut [u8], judge: J) -> Self
        requires { IsUtf8 bytes.old }
        ensures text { result.text ≡ bytes.old }
        ensures judge { result.judge ≡ judge }
        ensures loans { NothingOut bytes.entry.ghost_name result.loans }
    {
        let (bytes, loans) = Loans::open(bytes);
        LinearStrGroupsMut {
            bytes,
            judge,
            loans,
        }
    }

    /// The characters that no call has handed out yet.
    #[inline]
    pub fn as_str(&self) -> &str
        ensures { result.now ≡ self.now.text }
    {
        text_of(self.bytes)
    }

    /// How many bytes no call has handed out yet.
    #[inline]
    pub fn remainder_len(&self) -> usize
        ensures { result ≡ length self.now.text }
    {
        self.bytes.len()
    }

    /// Whether all characters are handed out.
    #[inline]
    pub fn is_empty(&self) -> bool
        ensures { result ≡ nat_eq (length self.now.text) 0 }
    {
        self.remainder_len() == 0
    }
}

impl<'a, J: Drop> LinearStrGroupsMut<'a, J> {
    /// Takes note of how the oldest group that is out was left, which came off at the front.
    #[inline]
    pub fn note_front(&mut self, group: Ended<'_, u8>)
        requires { self.old.loans.cuts ≡ (Front, group.name) ∷ drop 1 self.old.loans.cuts }
        ensures text { self.new.text ≡ self.old.text }
        ensures judge { self.new.judge ≡ self.old.judge }
        ensures root { self.new.loans.root ≡ self.old.loans.root }
        ensures before { self.new.loans.before ≡ self.old.loans.before ++ group.entry.value }
        ensures after { self.new.loans.after ≡ self.old.loans.after }
        ensures cuts { self.new.loans.cuts ≡ drop 1 self.old.loans.cuts }
    {
        self.loans.note(&End::Front, group);
    }

    /// Takes note of how the oldest group that is out was left, which came off at the back.
    #[inline]
    pub fn note_back(&mut self, group: Ended<'_, u8>)
        requires { self.old.loans.cuts ≡ (Back, group.name) ∷ drop 1 self.old.loans.cuts }
        ensures text { self.new.text ≡ self.old.text }
        ensures judge { self.new.judge ≡ self.old.judge }
        ensures root { self.new.loans.root ≡ self.old.loans.root }
        ensures before { self.new.loans.before ≡ self.old.loans.before }
        ensures after { self.new.loans.after ≡ group.entry.value ++ self.old.loans.after }
        ensures cuts { self.new.loans.cuts ≡ drop 1 self.old.loans.cuts }
    {
        self.loans.note(&End::Back, group);
    }

    /// No group is out: what remains stays as it is, and so the whole input is known.
    #[inline]
    pub fn finish(self) -> Ended<'a, u8>
        requires { self.loans.cuts ≡ [] }
        ensures name { result.name ≡ self.entry.loans.root }
        ensures value { result.value ≡ self.entry.loans.before ++ (self.entry.text ++ self.entry.loans.after) }
    {
        let LinearStrGroupsMut { bytes, loans, .. } = self;
        loans.close(Ended::of(bytes))
    }
}

impl<'a, J: TextJudge + Drop> Iterator for LinearStrGroupsMut<'a, J> {
    type Item = &'a mut [u8];

    ghost use Rattle.sgb_linear_str_group.specs.TextsMut.{text_groups_of_mut, GivesTextMut};

    ghost can_next = { λ s. IsCallableBy AreNeighbours J.Judge (in_characters (text_groups_of_mut s)) };

    ghost next_gives = { GivesTextMut J.Judge Front };

    ghost remaining = { text_groups_mut_to_come };

    /// The bytes of the first group of the remainder, or `None` where nothing remains. For a group of g characters it asks g
    /// questions, or g - 1 where nothing remains after it.
    #[inline]
    fn next(&mut self) -> Option<&'a mut [u8]> {
        self.next_at(End::Front)
    }

    /// `(0, None)`, as in the Rust crate: it says nothing about how many groups remain.
    #[inline]
    fn size_hint(&self) -> (usize, Option<usize>)
        ensures value { result ≡ (0, None) }
        ensures lower { IsWithinCount result.0 (text_groups_mut_to_come self.now) }
        ensures upper { IfSome result.1 (UpTo (text_groups_mut_to_come self.now)) }
    {
        (0, None)
    }
}

impl<'a, J: TextJudge + Drop> DoubleEndedIterator for LinearStrGroupsMut<'a, J> {
    ghost use Rattle.sgb_linear_str_group.specs.TextsMut.{text_groups_of_mut, GivesTextMut};

    ghost can_next_back = { λ s. IsCallableBy AreNeighbours J.Judge (in_characters (text_groups_of_mut s)) };

    ghost next_back_gives = { GivesTextMut J.Judge Back };

    /// The bytes of the last group of the remainder, or `None` where nothing remains. For a group of g characters it asks g
    /// questions, or g - 1 where nothing remains before it.
    #[inline]
    fn next_back(&mut self) -> Option<&'a mut [u8]> {
        self.next_at(End::Back)
    }
}

impl<'a, J: TextJudge + Drop> FusedIterator for LinearStrGroupsMut<'a, J> {}

impl<'a, J: TextJudge + Drop> LinearStrGroupsMut<'a, J> {
    ghost use Rattle.std.specs.Borrow.{sem, u8};
    ghost use Rattle.sgb_loans.specs.Loans.{IsLastOf, input_ends_after};
    ghost use Rattle.sgb_linear_str_group.specs.TextsMut.{text_groups_of_mut, GivesTextMut};

    /// The bytes of the last group of the remainder, or `None` where nothing remains: what `next_back` gives, by its
    /// questions. The iterator is given up. `Iterator::last` walks all groups from the front.
    ///
    /// What remains stays as it is: the input ends as what it was, but for this group and the parts that were out before. That
    /// it asks nothing more was reviewed by hand.
    #[inline]
    pub fn last(self) -> Option<&'a mut [u8]>
        requires { IsCallableBy AreNeighbours J.Judge (in_characters (text_groups_of_mut self)) }
        ensures* ends { sem 𝓛 (input_ends_after u8 self.entry.loans self.entry.text result) }
        ensures gives { (t : TextGroupsMut J) × GivesTextMut J.Judge Back self.entry result t }
    {
        self.take_last().into_part()
    }

    // The end of the walk, after one more group from the back.
    #[inline]
    fn take_last(mut self) -> Last<'a, u8>
        requires { IsCallableBy AreNeighbours J.Judge (in_characters (text_groups_of_mut self)) }
        ensures gives { (t : TextGroupsMut J) × GivesTextMut J.Judge Back self.entry result.part t }
        ensures last { IsLastOf self.entry.text self.entry.loans result }
    {
        let part = self.next_back();
        let LinearStrGroupsMut { bytes, loans, .. } = self;
        Last {
            part,
            rest: Ended::of(bytes),
            loans,
        }
    }
}

impl<'a, J: TextJudge> LinearStrGroupsMut<'a, J> {
    ghost use Rattle.sgb_linear_str_group.specs.TextsMut.{text_groups_of_mut, GivesTextMut};

    /// For the libraries alone: what `next` gives from the front and `next_back` from the back, by their questions.
    // Public for `GroupQueue`, which asks for no `Drop`. Each caller names its end, and gets a copy for that end alone.
    #[inline(always)]
    pub fn next_at(&mut self, end: End) -> Option<&'a mut [u8]>
        requires { IsCallableBy AreNeighbours J.Judge (in_characters (text_groups_of_mut self.old)) }
        ensures gives { GivesTextMut J.Judge end self.old result self.new }
        ensures callable { IsCallableBy AreNeighbours J.Judge (in_characters (text_groups_of_mut self.new)) }
    {
        // Not `is_empty`, which would lend the bytes once more: less is known of them then.
        if self.bytes.len() == 0 {
            return None;
        }
        let all = mem::take(&mut self.bytes);
        let (group, _) = self.judge.split_group(end, text_of(all)).unwrap();
        let len = group.len();
        let (group, rest) = self.loans.cut(&end, all, len);
        self.bytes = rest;
        Some(group)
    }
}
