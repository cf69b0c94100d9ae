//! What decides whether two elements belong together.
ghost use Rattle.std.specs.Prelude.{◌≡◌, ℕ, ◌+◌, Bool};

use std::marker::{Model, PhantomData};

/// Decides whether two elements belong together.
///
/// A question is about two elements: linear calls ask about the left one first, binary and exponential ones about the outermost
/// first. `Self` is the state that a question may change.
pub trait Judge<T> {
    // The judge may be asked about the pair.
    ghost may_ask: { Self → T × T → Type 0 };

    // The state before, the pair, an answer that may come, and the state after.
    ghost answers: { Self → T × T → Bool → Self → Type 0 };

    /// Whether `first` and `second` belong together: one question.
    fn ask(&mut self, first: &T, second: &T) -> bool
        requires { may_ask self.old (first.now, second.now) }
        ensures { answers self.old (first.now, second.now) result self.new };
}

/// Asks a predicate: one call a question, on the first element of it and the second.
#[derive(Drop)]
pub struct PredicateJudge<P> {
    pub predicate: P,
}

impl<T, P: FnMut(&T, &T) -> bool> Judge<T> for PredicateJudge<P> {
    ghost use Rattle.sgb_split.specs.Judges.{by_predicate};

    ghost may_ask = { (by_predicate P.FnMut).may_ask };

    ghost answers = { (by_predicate P.FnMut).answers };

    #[inline]
    fn ask(&mut self, first: &T, second: &T) -> bool {
        (self.predicate)(first, second)
    }
}

/// Asks for the keys: a call of the key function on the first element of a question, then one on the second, then `==` of the
/// two keys. How often the keys are compared, and which way round, was reviewed by hand.
#[derive(Drop)]
pub struct KeyJudge<F, K> {
    pub func: F,
    pub key: PhantomData<K>,
}

impl<F, K> KeyJudge<F, K> {
    ghost use Rattle.sgb_split.specs.Judges.{key_judge};

    /// A judge that asks for the keys of this function.
    #[inline]
    pub fn new(func: F) -> KeyJudge<F, K>
        ensures { result ≡ key_judge func }
    {
        KeyJudge {
            func,
            key: PhantomData,
        }
    }
}

impl<T, K: PartialEq + Drop, F: FnMut(&T) -> K> Judge<T> for KeyJudge<F, K> {
    ghost use Rattle.sgb_split.specs.Judges.{by_key};

    ghost may_ask = { (by_key F.FnMut K.eq).may_ask };

    ghost answers = { (by_key F.FnMut K.eq).answers };

    #[inline]
    fn ask(&mut self, first: &T, second: &T) -> bool {
        let first_key = (self.func)(first);
        let second_key = (self.func)(second);
        first_key == second_key
    }
}

/// Asks a predicate of two characters, by value: one call a question, on its first character and the second.
#[derive(Drop)]
pub struct CharPredicateJudge<P> {
    pub predicate: P,
}

impl<P: FnMut(char, char) -> bool> Judge<char> for CharPredicateJudge<P> {
    ghost use Rattle.sgb_split.specs.Judges.{by_char_predicate};

    ghost may_ask = { (by_char_predicate P.FnMut).may_ask };

    ghost answers = { (by_char_predicate P.FnMut).answers };

    #[inline]
    fn ask(&mut self, first: &char, second: &char) -> bool {
        (self.predicate)(*first, *second)
    }
}

/// Asks for the keys of characters, by value: a call of the key function on the first one of a question, then one on the
/// second, then one `==` of the two keys (this was reviewed by hand).
#[derive(Drop)]
pub struct CharKeyJudge<F, K> {
    pub func: F,
    pub key: PhantomData<K>,
}

impl<F, K> CharKeyJudge<F, K> {
    ghost use Rattle.sgb_split.specs.Judges.{char_key_judge};

    /// A judge that asks for the keys of this function.
    #[inline]
    pub fn new(func: F) -> CharKeyJudge<F, K>
        ensures { result ≡ char_key_judge func }
    {
        CharKeyJudge {
            func,
            key: PhantomData,
        }
    }
}

impl<K: PartialEq + Drop, F: FnMut(char) -> K> Judge<char> for CharKeyJudge<F, K> {
    ghost use Rattle.sgb_split.specs.Judges.{by_char_key};

    ghost may_ask = { (by_char_key F.FnMut K.eq).may_ask };

    ghost answers = { (by_char_key F.FnMut K.eq).answers };

    #[inline]
    fn ask(&mut self, first: &char, second: &char) -> bool {
        let first_key = (self.func)(*first);
        let second_key = (self.func)(*second);
        first_key == second_key
    }
}

/// Asks `==` of the elements. It may always be asked.
///
/// It counts its questions, for contracts alone: the number takes no bytes, and no code can read it. That a question is one
/// `==`, and that no other is made, is tested.
#[derive(Drop)]
pub struct EqualityJudge {
    pub ghost asked: { ℕ },
}

impl Model for EqualityJudge {
    ghost use Rattle.std.specs.Borrow.{ftrue};

    ghost also_owns = { λ _. ftrue };
}

// It holds nothing, so that any thread may have it.
unsafe impl Send for EqualityJudge {}

unsafe impl Sync for EqualityJudge {}

impl<T: PartialEq> Judge<T> for EqualityJudge {
    ghost use Rattle.sgb_split.specs.Judges.{by_equality};

    ghost may_ask = { (by_equality T.eq).may_ask };

    ghost answers = { (by_equality T.eq).answers };

    #[inline]
    fn ask(&mut self, first: &T, second: &T) -> bool {
        *self = EqualityJudge::one_more(self);
        first == second
    }
}

impl EqualityJudge {
    /// A judge that was asked nothing yet.
    #[inline]
    pub fn new() -> EqualityJudge
        ensures { result.asked ≡ 0 }
    {
        EqualityJudge {}
    }

    /// The judge after one question more.
    #[inline]
    pub fn one_more(_before: &EqualityJudge) -> EqualityJudge
        ensures { result.asked ≡ _before.now.asked + 1 }
    {
        EqualityJudge {}
    }
}
