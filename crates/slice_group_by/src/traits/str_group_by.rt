//! Groups by a method of the text.
ghost use Rattle.std.specs.Prelude.{◌≡◌, ℕ, Bool, nat_eq};
ghost use Rattle.sgb_split.specs.Calls.{IsCallableBy, at_start};
ghost use Rattle.sgb_split.specs.Split.{AreNeighbours};
ghost use Rattle.std.specs.Str.{IsUtf8};
ghost use Rattle.sgb_split.specs.Judges.{by_char_predicate, char_predicate_judge, ComputesOnChars, by_char_key, char_key_judge, ComputesCharKey, by_equality};
ghost use Rattle.sgb_linear_str_group.specs.Texts.{text_groups_of, text_place_of, IsSettledText, in_characters};
ghost use Rattle.sgb_linear_str_group.specs.TextsMut.{text_groups_of_mut};
ghost use Rattle.sgb_loans.specs.Loans.{NothingOut};

use crate::traits::holders::AsMutSlice;
use sgb_linear_str_group::by_equality::{LinearStrGroup, LinearStrGroupMut};
use sgb_linear_str_group::by_key::{LinearStrGroupByKey, LinearStrGroupByKeyMut};
use sgb_linear_str_group::by_predicate::{LinearStrGroupBy, LinearStrGroupByMut};
use std::convert::AsStr;

/// Groups of neighbouring characters, for reading.
///
/// A method requires what `new` of its type requires, and gives what it gives on the whole text. The groups live as long as
/// the borrow of the variable; groups from `new` live as long as the text.
///
/// ```
/// let text = "aaaabbbbb饰饰cccc";
/// let mut groups = text.linear_group_by(|a, b| a == b);
/// groups.next();      // Some("aaaa")
/// groups.next_back(); // Some("cccc")
/// ```
pub trait StrGroupBy: AsStr {
    /// Groups by a key: neighbours whose keys are equal belong together. At most g questions for a group of g. See
    /// `LinearStrGroupByKey`.
    #[inline]
    fn linear_group_by_key<F, K>(&self, func: F) -> LinearStrGroupByKey<'_, F, K>
    where
        F: FnMut(char) -> K,
        K: PartialEq + Drop,
        requires { IsCallableBy AreNeighbours (by_char_key F.FnMut K.eq)
            (in_characters (record { text = Self.text self.now; judge = char_key_judge func })) }
        ensures text { (text_groups_of result).text ≡ Self.text self.now }
        ensures place { text_place_of result ≡ at_start (Self.text self.now) }
        ensures judge { result.judge ≡ char_key_judge func }
        ensures callable { IsCallableBy AreNeighbours (by_char_key F.FnMut K.eq)
            (in_characters (text_groups_of result)) }
        ensures settled { (key : ℕ → K) → ComputesCharKey F.FnMut key func
            → IsSettledText (by_char_key F.FnMut K.eq) (text_groups_of result) (λ x y. K.eq (key x) (key y)) }
    {
        LinearStrGroupByKey::new(self.as_str(), func)
    }

    /// Groups by a predicate: neighbours of which it says yes, the left one first, belong together. At most g questions for
    /// a group of g. See `LinearStrGroupBy`.
    #[inline]
    fn linear_group_by<P>(&self, predicate: P) -> LinearStrGroupBy<'_, P>
    where
        P: FnMut(char, char) -> bool,
        requires { IsCallableBy AreNeighbours (by_char_predicate P.FnMut)
            (in_characters (record { text = Self.text self.now; judge = char_predicate_judge predicate })) }
        ensures text { (text_groups_of result).text ≡ Self.text self.now }
        ensures place { text_place_of result ≡ at_start (Self.text self.now) }
        ensures judge { result.judge ≡ char_predicate_judge predicate }
        ensures callable { IsCallableBy AreNeighbours (by_char_predicate P.FnMut)
            (in_characters (text_groups_of result)) }
        ensures settled { (p : ℕ → ℕ → Bool) → ComputesOnChars P.FnMut p predicate
            → IsSettledText (by_char_predicate P.FnMut) (text_groups_of result) p }
    {
        LinearStrGroupBy::new(self.as_str(), predicate)
    }

    /// Groups of equal characters. At most g questions for a group of g. See `LinearStrGroup`.
    #[inline]
    fn linear_group(&self) -> LinearStrGroup<'_>
        ensures text { (text_groups_of result).text ≡ Self.text self.now }
        ensures place { text_place_of result ≡ at_start (Self.text self.now) }
        ensures asked { result.judge.asked ≡ 0 }
        ensures callable { IsCallableBy AreNeighbours (by_equality nat_eq) (in_characters (text_groups_of result)) }
        ensures settled { IsSettledText (by_equality nat_eq) (text_groups_of result) nat_eq }
    {
        LinearStrGroup::new(self.as_str())
    }
}

impl<S: AsStr> StrGroupBy for S {}

/// Groups of neighbouring characters of a text's bytes, for writing.
///
/// A method requires what `new` of its type requires, UTF-8 among it, and gives what it gives on all the bytes. The groups
/// live as long as the borrow of the variable. To learn what the bytes are afterwards, call `new`: no contract of a method
/// says that.
///
/// `GroupByMut` has methods of the same names: where both are imported, a call on bytes names its trait.
///
/// ```
/// let mut array = *b"aab";
/// let mut bytes: &mut [u8] = &mut array;
/// for group in StrGroupByMut::linear_group_mut(&mut bytes) {
///     group.fill(b'-');
/// }
/// ```
pub trait StrGroupByMut: AsMutSlice<u8> {
    /// Groups by a key: neighbours whose keys are equal belong together. At most g questions for a group of g. See
    /// `LinearStrGroupByKeyMut`.
    #[inline]
    fn linear_group_by_key_mut<F, K>(&mut self, func: F) -> LinearStrGroupByKeyMut<'_, F, K>
    where
        F: FnMut(char) -> K,
        K: PartialEq + Drop,
        requires utf8 { IsUtf8 (Self.elements self.old) }
        requires callable { IsCallableBy AreNeighbours (by_char_key F.FnMut K.eq)
            (in_characters (record { text = Self.elements self.old; judge = char_key_judge func })) }
        ensures text { result.text ≡ Self.elements self.entry.now }
        ensures judge { result.judge ≡ char_key_judge func }
        ensures callable { IsCallableBy AreNeighbours (by_char_key F.FnMut K.eq)
            (in_characters (text_groups_of_mut result)) }
        ensures settled { (key : ℕ → K) → ComputesCharKey F.FnMut key func
            → IsSettledText (by_char_key F.FnMut K.eq) (text_groups_of_mut result) (λ x y. K.eq (key x) (key y)) }
        ensures loans { NothingOut result.loans.root result.loans }
    {
        LinearStrGroupByKeyMut::new(self.as_mut_slice(), func)
    }

    /// Groups by a predicate: neighbours of which it says yes, the left one first, belong together. At most g questions for
    /// a group of g. See `LinearStrGroupByMut`.
    #[inline]
    fn linear_group_by_mut<P>(&mut self, predicate: P) -> LinearStrGroupByMut<'_, P>
    where
        P: FnMut(char, char) -> bool,
        requires utf8 { IsUtf8 (Self.elements self.old) }
        requires callable { IsCallableBy AreNeighbours (by_char_predicate P.FnMut)
            (in_characters (record { text = Self.elements self.old; judge = char_predicate_judge predicate })) }
        ensures text { result.text ≡ Self.elements self.entry.now }
        ensures judge { result.judge ≡ char_predicate_judge predicate }
        ensures callable { IsCallableBy AreNeighbours (by_char_predicate P.FnMut)
            (in_characters (text_groups_of_mut result)) }
        ensures settled { (p : ℕ → ℕ → Bool) → ComputesOnChars P.FnMut p predicate
            → IsSettledText (by_char_predicate P.FnMut) (text_groups_of_mut result) p }
        ensures loans { NothingOut result.loans.root result.loans }
    {
        LinearStrGroupByMut::new(self.as_mut_slice(), predicate)
    }

    /// Groups of equal characters. At most g questions for a group of g. See `LinearStrGroupMut`.
    #[inline]
    fn linear_group_mut(&mut self) -> LinearStrGroupMut<'_>
        requires { IsUtf8 (Self.elements self.old) }
        ensures text { result.text ≡ Self.elements self.entry.now }
        ensures asked { result.judge.asked ≡ 0 }
        ensures callable { IsCallableBy AreNeighbours (by_equality nat_eq) (in_characters (text_groups_of_mut result)) }
        ensures settled { IsSettledText (by_equality nat_eq) (text_groups_of_mut result) nat_eq }
        ensures loans { NothingOut result.loans.root result.loans }
    {
        LinearStrGroupMut::new(self.as_mut_slice())
    }
}

impl<S: AsMutSlice<u8>> StrGroupByMut for S {}
