//! Bytes, which are a slice and may be a text.
use slice_group_by::{LinearStrGroupByKeyMut, StrGroupByMut};
use std::io;

/// Makes dashes of each run of equal characters that has several bytes, and says whether the bytes were a text.
pub fn cross_out(mut bytes: &mut [u8]) -> bool {
    if std::str::from_utf8(bytes).is_err() {
        return false;
    }
    for run in StrGroupByMut::linear_group_mut(&mut bytes) {
        if run.len() > 1 {
            run.fill(b'-');
        }
    }
    true
}

/// Makes the first letter of each word a capital.
pub fn capitalize(bytes: &mut [u8]) {
    if std::str::from_utf8(bytes).is_ok() {
        for word in LinearStrGroupByKeyMut::new(bytes, |c| c.is_alphabetic()) {
            if let Some(first) = word.first_mut() {
                first.make_ascii_uppercase();
            }
        }
    }
}

/// Prints what these give.
pub fn print_all(rt: &impl Print) -> io::Result<()> {
    let mut words = *b"(na\xc3\xafve x";
    capitalize(&mut words);
    let mut crossed = *b"aa\xc3\xa9b";
    let was_text = (cross_out(&mut crossed), cross_out(&mut [255]));
    println!(rt; "bytes: {words:?} {crossed:?} {was_text:?}")
}
