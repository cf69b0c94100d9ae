//! Names and values, as complaints show them.

use std::fmt;
use std::fmt::Write;

/// The name of a file. A control character in it is shown by its letter or its number behind a backslash.
#[derive(Clone, Copy)]
pub struct ShownName<'a>(pub &'a str);

impl<'a> fmt::Display for ShownName<'a> {
    fn fmt<W: fmt::Write>(&self, f: &mut fmt::Formatter<W>) -> fmt::Result {
        for character in self.0.chars() {
            if character.is_control() {
                write!(f, "{}", character.escape_default())?;
            } else {
                f.write_char(character)?;
            }
        }
        Ok(())
    }
}

// So many bytes of a value are shown at most.
const MOST: usize = 40;

/// The front of a value in quotes: at most forty bytes, and two dots where it goes on. Text is shown as `{:?}` shows it, and bytes
/// that are not UTF-8 by their numbers.
#[derive(Clone, Copy)]
pub struct Excerpt<'a>(pub &'a [u8]);

impl<'a> fmt::Display for Excerpt<'a> {
    fn fmt<W: fmt::Write>(&self, f: &mut fmt::Formatter<W>) -> fmt::Result {
        let Some(front) = self.0.get(..MOST) else {
            return write_value(self.0, self.0, f);
        };
        write_value(front, whole_characters(front), f)?;
        if front.len() < self.0.len() {
            f.write_str("..")?;
        }
        Ok(())
    }
}

// Writes a value, which is this text if it is UTF-8.
fn write_value<W: fmt::Write>(bytes: &[u8], text: &[u8], f: &mut fmt::Formatter<W>) -> fmt::Result {
    match str::from_utf8(text) {
        Ok(text) => write!(f, "{text:?}"),
        Err(_) => write!(f, "\"{}\"", bytes.escape_ascii()),
    }
}

// The bytes without the last character, if that is cut.
fn whole_characters(bytes: &[u8]) -> &[u8] {
    match str::from_utf8(bytes) {
        Err(error) if error.error_len().is_none() => {
            bytes.get(..error.valid_up_to()).unwrap_or(bytes)
        }
        _ => bytes,
    }
}
