//! What the groups of a text are as bytes, and how many characters a text has.
ghost use Rattle.std.specs.Prelude.{◌≡◌, ℕ, ◌≤◌, List, length, Option, map, option_map};
ghost use Rattle.std.specs.Iterator.{Yields, Drains};
ghost use Rattle.std.specs.Str.{chars};
ghost use Rattle.std.proofs.Math.Utf8.{encodes};
ghost use Rattle.sgb_split.specs.Split.{from, put_at, concat};
ghost use Rattle.sgb_split.specs.declared.end.End.{End};
ghost use Rattle.slice_group_by.specs.Walk.{Partition, IsChain};

use crate::laws::judged::OfText;

/// The bytes of the groups of a text, joined, are what goes: of a list of calls at both ends, and of calls at one end, until nothing
/// remains or not. What `groups_join` and `walk` say of characters, this says of bytes. The bytes of each group are the
/// encodings of its characters, and so of the piece that it is.
/// May change.
pub fn texts_join<S: OfText>(_groups: &S)
    ensures encodings { (s t : S) (ends : List End) (out : List (Option S.Item)) → IsChain S.GroupQueue.gives s ends out t
        → map (option_map S.bytes) out
        ≡ map (option_map encodes) (map (option_map (λ group. chars (S.bytes group))) out) }
    ensures calls { (s t : S) (ends : List End) (out : List (Option S.Item)) → IsChain S.GroupQueue.gives s ends out t
        → Partition ends (map (option_map S.bytes) out) (S.text t) (S.text s) }
    ensures part { (e : End) (s t : S) (groups : List S.Item) → Yields (S.GroupQueue.gives e) s groups t
        → put_at e (concat (from e (map S.bytes groups))) (S.text t) ≡ S.text s }
    ensures whole { (e : End) (s : S) (groups : List S.Item) → Drains (S.GroupQueue.gives e) s groups
        → concat (from e (map S.bytes groups)) ≡ S.text s }
{}

/// A text has no more characters than bytes, so that a count of them fits where one of the bytes does.
/// May change.
pub fn characters_fit()
    ensures { (text : List ℕ) → length (chars text) ≤ length text }
{}
