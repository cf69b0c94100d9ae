//! Tokens that say what a slice ends as.
ghost use Rattle.std.specs.Prelude.{◌≡◌, ℕ, List, ◌++◌, ◌≤◌, [], ◌∷◌, length, drop};
ghost use Rattle.std.specs.Coded.{coded_list};
ghost use Rattle.std.specs.Borrow.{sem, LendsBoth, Array};
ghost use Rattle.sgb_split.specs.declared.end.End.{End};
ghost use Rattle.sgb_split.specs.Split.{put_at};

use sgb_split::end::End;
use std::marker::{Model, PhantomData};

/// A slice that was given up for good, and what it was then: the slice named `name` ended as `value`.
#[derive(Drop)]
#[must_use = "it is what is known of the slice that was given up"]
pub struct Ended<'a, T> {
    pub(crate) marker: PhantomData<&'a T>,
    pub ghost name: { ℕ },
    pub ghost value: { List T } by { coded_list T.code },
}

impl<'a, T> Model for Ended<'a, T> {
    ghost use Rattle.sgb_loans.specs.Loans.{ended_as};

    ghost also_owns = { λ l. ended_as T.row l.name l.value };
}

// It holds no element, so that any thread may have it.
unsafe impl<'a, T> Send for Ended<'a, T> {}

unsafe impl<'a, T> Sync for Ended<'a, T> {}

impl<'a, T> Ended<'a, T> {
    /// Gives the slice up: what it is now is what it ends as.
    #[inline]
    pub fn of(slice: &'a mut [T]) -> Ended<'a, T>
        ensures name { result.name ≡ slice.entry.ghost_name }
        ensures value { result.value ≡ slice.old }
    {
        Ended {
            marker: PhantomData,
        }
    }
}

// That of slices, with what the walks cite of it.
#[inline]
fn split_at_mut<T>(all: &mut [T], mid: usize) -> (&mut [T], &mut [T])
    requires { mid ≤ length all.old }
    ensures* ends { sem 𝓛 (LendsBoth (Array T.row 0) (Array T.row 0) (Array T.row 0) all.entry result ◌++◌) }
    ensures parts { (all.entry.now ≡ result.0.now ++ result.1.now) × (length result.0.now ≡ mid) }
{
    all.split_at_mut(mid)
}

/// The parts of a slice that are out: the slice named `root` ends as `before`, then what the parts of `cuts` and the slice
/// named `rest` end as, in their places, then `after`.
///
/// `cuts` lists the parts that are out, the oldest first, each with the end that it came off.
#[derive(Drop)]
#[must_use = "it is what is known of the slice"]
pub struct Loans<T> {
    pub(crate) marker: PhantomData<T>,
    pub ghost root: { ℕ },
    pub ghost before: { List T } by { coded_list T.code },
    pub ghost after: { List T } by { coded_list T.code },
    pub ghost cuts: { List (End × ℕ) },
    pub ghost rest: { ℕ },
}

impl<T> Model for Loans<T> {
    ghost use Rattle.sgb_loans.specs.Loans.{loan_owns};

    ghost also_owns = { λ l. loan_owns T.row l.root l.before l.after l.cuts l.rest };
}

// It holds no element either.
unsafe impl<T> Send for Loans<T> {}

unsafe impl<T> Sync for Loans<T> {}

impl<T> Loans<T> {
    ghost use Rattle.sgb_loans.specs.Loans.{HandsOut, noted, part_at, rest_at};

    /// For the libraries alone: no part of the slice is out yet. The slice itself comes back, to be cut.
    #[inline]
    pub fn open<'a>(slice: &'a mut [T]) -> (&'a mut [T], Loans<T>)
        ensures slice { result.0 ≡ slice.entry }
        ensures root { result.1.root ≡ slice.entry.ghost_name }
        ensures before { result.1.before ≡ [] }
        ensures after { result.1.after ≡ [] }
        ensures cuts { result.1.cuts ≡ [] }
        ensures rest { result.1.rest ≡ slice.entry.ghost_name }
    {
        let loans = Loans {
            marker: PhantomData,
        };
        (slice, loans)
    }

    // Cuts the rest `all` in two at `mid`: the one at the end is a part that is out then, and the other is the rest. `cut` tells
    // them apart.
    #[inline]
    fn cut_at<'a>(&mut self, end: &End, all: &'a mut [T], mid: usize) -> (&'a mut [T], &'a mut [T])
        requires within { mid ≤ length all.old }
        requires rest { all.ghost_name ≡ self.old.rest }
        ensures parts { (all.entry.now ≡ result.0.now ++ result.1.now) × (length result.0.now ≡ mid) }
        ensures rest { self.new.rest ≡ (rest_at end.now result).ghost_name }
        ensures out { HandsOut end.now self.old (part_at end.now result).ghost_name self.new }
    {
        split_at_mut(all, mid)
    }

    /// For the libraries alone: cuts the part of `len` elements at the end off the rest `all`. The part comes first, and is out
    /// then. The second is the rest.
    #[inline]
    pub fn cut<'a>(&mut self, end: &End, all: &'a mut [T], len: usize) -> (&'a mut [T], &'a mut [T])
        requires within { len ≤ length all.old }
        requires rest { all.ghost_name ≡ self.old.rest }
        ensures value { all.entry.now ≡ put_at end.now result.0.now result.1.now }
        ensures len { length result.0.now ≡ len }
        ensures rest { self.new.rest ≡ result.1.ghost_name }
        ensures out { HandsOut end.now self.old result.0.ghost_name self.new }
    {
        match end {
            End::Front => self.cut_at(end, all, len),
            End::Back => {
                let start = all.len() - len;
                let (rest, part) = self.cut_at(end, all, start);
                (part, rest)
            }
        }
    }

    /// Takes note of how the oldest part, which came off at `end`, was left: it is out no more.
    #[inline]
    pub fn note(&mut self, end: &End, part: Ended<'_, T>)
        requires { self.old.cuts ≡ (end.now, part.name) ∷ drop 1 self.old.cuts }
        ensures { self.new ≡ noted end.now part.entry.value self.old }
    {
        let Ended { marker: _ } = part;
    }

    /// No part is out, and the rest is given up: so the whole slice is known.
    #[inline]
    pub fn close<'a>(self, rest: Ended<'a, T>) -> Ended<'a, T>
        requires cuts { self.cuts ≡ [] }
        requires rest { rest.name ≡ self.rest }
        ensures name { result.name ≡ self.root }
        ensures value { result.value ≡ self.before ++ (rest.entry.value ++ self.after) }
    {
        let Loans { marker: _ } = self;
        let Ended { marker: _ } = rest;
        Ended {
            marker: PhantomData,
        }
    }
}

/// The end of a walk: the part that it gave last, what remained then, and the loans.
pub struct Last<'a, T> {
    pub part: Option<&'a mut [T]>,
    pub rest: Ended<'a, T>,
    pub loans: Loans<T>,
}

impl<'a, T> Model for Last<'a, T> {
    ghost use Rattle.std.specs.Prelude.{◌≡◌};
    ghost use Rattle.sgb_loans.specs.Loans.{LastPart};

    ghost Value = { LastPart T };

    ghost view = { λ l. record { part = l.part; left = l.rest.value; loans = l.loans } };

    ghost invariant = { λ l. l.rest.name ≡ l.loans.rest };
}

impl<'a, T> Last<'a, T> {
    ghost use Rattle.sgb_loans.specs.Loans.{rest_ends};

    /// The part. The loans are given up: whoever learns what the parts that are out end as learns what the whole slice ends as.
    #[inline]
    pub fn into_part(self) -> Option<&'a mut [T]>
        ensures* ends { sem 𝓛 (rest_ends T.row self.entry.loans self.entry.left) }
        ensures part { result ≡ self.entry.part }
    {
        let Last {
            part,
            rest: Ended { marker: _ },
            loans: Loans { marker: _ },
        } = self;
        part
    }
}

const _: () = prove!(size_of::<Ended<'static, u32>>() == 0);

const _: () = prove!(size_of::<Loans<u32>>() == 0);
