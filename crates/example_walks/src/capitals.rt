//! A text whose groups of letters are made upper case in place, through groups for writing.
ghost use Rattle.std.specs.Prelude.{◌≡◌, []};
ghost use Rattle.slice_group_by.specs.Texts.{in_characters, IsSettledText};
ghost use Rattle.slice_group_by.specs.Calls.{IsCallableBy};
ghost use Rattle.slice_group_by.specs.Split.{AreNeighbours};
ghost use Rattle.std.specs.Str.{IsUtf8, str_to_ascii_uppercase};
ghost use Rattle.std.specs.Char.{is_ascii_alphabetic};
ghost use Rattle.slice_group_by.specs.Judges.{by_char_key};
ghost use Rattle.slice_group_by.specs.TextsMut.{text_groups_of_mut};

use slice_group_by::LinearStrGroupByKeyMut;
use slice_group_by::laws::calls_take_pieces;
use slice_group_by::loans::{Ended, resolve};

// Makes each group of letters upper case, and leaves the other groups as they are.
fn groups_capitalized<'a, F: FnMut(char) -> bool>(
    mut groups: LinearStrGroupByKeyMut<'a, F, bool>,
) -> Ended<'a, u8>
    requires callable { IsCallableBy AreNeighbours (by_char_key F.FnMut ⟦<bool as PartialEq>⟧.eq)
        (in_characters (text_groups_of_mut groups)) }
    requires letters { IsSettledText (by_char_key F.FnMut ⟦<bool as PartialEq>⟧.eq) (text_groups_of_mut groups)
        (λ a b. ⟦<bool as PartialEq>⟧.eq (is_ascii_alphabetic a) (is_ascii_alphabetic b)) }
    requires before { groups.loans.before ≡ [] }
    requires after { groups.loans.after ≡ [] }
    requires cuts { groups.loans.cuts ≡ [] }
    ensures name { result.name ≡ groups.entry.loans.root }
    ensures value { result.value ≡ str_to_ascii_uppercase groups.entry.text }
{
    calls_take_pieces(&groups);
    while let Some(group) = groups.next() {
        if group[0].is_ascii_alphabetic() {
            group.make_ascii_uppercase();
        }
        groups.note_front(Ended::of(group));
    }
    groups.finish()
}

fn capitalized(bytes: &mut [u8]) -> Ended<'_, u8>
    requires { IsUtf8 bytes.old }
    ensures name { result.name ≡ bytes.entry.ghost_name }
    ensures value { result.value ≡ str_to_ascii_uppercase bytes.old }
{
    groups_capitalized(LinearStrGroupByKeyMut::new(bytes, |c| c.is_ascii_alphabetic()))
}

/// Makes the ASCII letters of a text upper case.
pub fn capitalize(bytes: &mut [u8])
    requires { IsUtf8 bytes.old }
    ensures { bytes.new ≡ str_to_ascii_uppercase bytes.old }
{
    resolve(bytes, |part| capitalized(part));
}
