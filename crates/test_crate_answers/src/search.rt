//! Searches in an ascending word.
use crate::fields::{Fields, LineError, next_field};
use slice_group_by::{exponential_search, exponential_search_by, exponential_search_by_key};

/// Whether a search answers as the fields of its line say.
pub fn is_same(fields: &mut Fields<'_>) -> Result<bool, LineError> {
    let name = next_field(fields, "search")?;
    let [target] = *next_field(fields, "target")?.as_bytes() else {
        return Err(LineError::Field("target"));
    };
    let word = next_field(fields, "word")?.as_bytes();
    let answer = match name {
        "element" => exponential_search(word, &target),
        "comparator" => exponential_search_by(word, |letter| letter.cmp(&target)),
        "key" => {
            let lower = target.to_ascii_lowercase();
            exponential_search_by_key(word, &lower, |letter| letter.to_ascii_lowercase())
        }
        _ => return Err(LineError::Field("search")),
    };
    let outcome = next_field(fields, "answer")?;
    let place = next_field(fields, "place")?.parse::<usize>();
    let place = place.or(Err(LineError::Field("place")))?;
    match outcome {
        "found" => Ok(answer == Ok(place)),
        "absent" => Ok(answer == Err(place)),
        _ => Err(LineError::Field("answer")),
    }
}
