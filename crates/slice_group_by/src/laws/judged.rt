//! What the groups of this library say beyond a queue: how their calls ask a judge, what they cut off a text, and what they hand
//! out for writing. The laws that rest on it are stated once, for reading and writing, slices and texts.
ghost use Rattle.std.specs.Prelude.{ℕ, List, Option, Some, option_map, IfSome};
ghost use Rattle.std.specs.Borrow.{GName};
ghost use Rattle.std.specs.Str.{IsUtf8};
ghost use Rattle.sgb_split.specs.declared.end.End.{End};
ghost use Rattle.sgb_split.specs.Split.{TakesPart};
ghost use Rattle.sgb_split.specs.Calls.{Groups, CallAt};
ghost use Rattle.sgb_loans.specs.declared.loans.Loans.{Loans};
ghost use Rattle.sgb_loans.specs.Loans.{HandsOut};

use crate::laws::queue::GroupQueue;
use sgb_groups::way::Way;
use sgb_split::judge::Judge;

/// Groups whose calls ask the judge `J` about elements in the way `W`.
pub trait Judged<T, J: Judge<T>, W: Way>: GroupQueue<Element = T> {
    // The elements that no call has handed out yet, and the judge.
    ghost groups: { Self → Groups T J };

    // What a call gives is a call in that way.
    ghost call: { (e : End) (s : Self) (group : Option Self.Item) (t : Self) → Self.GroupQueue.gives e s group t
        → CallAt (W.asks T J J.Judge) e (groups s) (option_map Self.GroupQueue.shows group) (groups t) };
}

/// Groups of a text, by its bytes.
pub trait OfText: GroupQueue {
    // The bytes that no call has handed out yet.
    ghost text: { Self → List ℕ };

    // The bytes of a group that a call has handed out.
    ghost bytes: { Self.Item → List ℕ };

    // A call gives a nonempty outer part of the bytes, or `None` exactly where none remain.
    ghost cuts: { (e : End) (s : Self) (group : Option Self.Item) (t : Self) → Self.GroupQueue.gives e s group t
        → TakesPart e (text s) (option_map bytes group) (text t) };

    // A group is UTF-8 when it is handed out.
    ghost utf8: { (e : End) (s : Self) (group : Option Self.Item) (t : Self) → Self.GroupQueue.gives e s group t
        → IfSome group (λ x. IsUtf8 (bytes x)) };
}

/// Groups for writing: a call hands out a part of the input.
pub trait Lends<T>: GroupQueue {
    // The parts of the input that are out.
    ghost loans: { Self → Loans T };

    // The name of a group that a call has handed out.
    ghost name: { Self.Item → GName };

    // A group that a call gives is out then, at that end.
    ghost hands_out: { (e : End) (s : Self) (group : Self.Item) (t : Self) → Self.GroupQueue.gives e s (Some group) t
        → HandsOut e (loans s) (name group) (loans t) };
}
