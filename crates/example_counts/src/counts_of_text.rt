//! Questions about a text that a closure counts in a variable of its caller's.
ghost use Rattle.std.specs.Prelude.{◌≡◌, ◌-◌, length};
ghost use Rattle.std.specs.Str.{chars};

use slice_group_by::LinearStrGroupBy;
use slice_group_by::laws::{calls_ask, characters_fit, linear_counts};

/// How many questions a walk over the groups of equal characters asks: one less than the text has characters, and none of
/// an empty text.
pub fn questions_of_text(text: &str) -> usize
    ensures { result ≡ length (chars text.now) - 1 }
{
    let mut count = 0usize;
    let mut groups = LinearStrGroupBy::new(text, |a: char, b: char| {
        count = count.wrapping_add(1);
        a == b
    });
    calls_ask(&groups);
    linear_counts(&groups);
    characters_fit();
    while let Some(_) = groups.next() {}
    count
}
