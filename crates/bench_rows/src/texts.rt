//! The rows over texts.
use crate::lines::{differs, write_texts};
use slice_group_by::{LinearStrGroupMut, StrGroupBy};
use std::cell::Cell;
use std::io;
use std::io::{Error, Write};

type Text = Option<&'static str>;

const ROW_9: [Text; 5] = [Some("aaaa"), Some("bbbbb"), Some("饰饰"), Some("cccc"), None];

/// Groups of a text by a predicate, with the bytes that remain before each call and after the last.
pub fn row_9<W: Write>(out: &mut W) -> Result<bool, Error> {
    let text = "aaaabbbbb饰饰cccc";
    let questions = Cell::new(0usize);
    let mut groups = text.linear_group_by(|a, b| {
        questions.set(questions.get().wrapping_add(1));
        a == b
    });
    let before_1 = groups.remainder_len();
    let first = groups.next();
    let before_2 = groups.remainder_len();
    let second = groups.next();
    let before_3 = groups.remainder_len();
    let third = groups.next();
    let before_4 = groups.remainder_len();
    let fourth = groups.next();
    let after = groups.remainder_len();
    let answers = [first, second, third, fourth, groups.next()];
    let remained = [before_1, before_2, before_3, before_4, after] == [19, 15, 10, 4, 0];
    write_texts(out, 9, &answers, &ROW_9, remained && questions.get() == 14)
}

const ROW_10: [Text; 1] = [Some("ab")];

/// Groups by a predicate that is not symmetric, from the back.
pub fn row_10<W: Write>(out: &mut W) -> Result<bool, Error> {
    let text = "ab";
    let mut groups = text.linear_group_by(|a, b| a < b);
    write_texts(out, 10, &[groups.next_back()], &ROW_10, true)
}

const BYTES: [u8; 5] = [0x61, 0xC3, 0xA9, 0xC3, 0xA9];

const FIRST: [u8; 1] = [97];

const REMAINDER: &str = "éé";

const SECOND: [u8; 4] = [195, 169, 195, 169];

const AFTERWARDS: [u8; 5] = [0xFF, 195, 169, 195, 169];

/// Groups of bytes for writing: what is written into a group leaves the remainder a text. The first walk shows that the groups
/// come as they are wanted; the second prints each as it comes, the first before it is written over.
pub fn row_16<W: Write>(out: &mut W) -> Result<bool, Error> {
    let mut bytes = BYTES;
    if !walk_16(&mut io::sink(), &mut bytes)? || bytes != AFTERWARDS {
        return differs(out, 16);
    }
    let mut bytes = BYTES;
    walk_16(out, &mut bytes)
}

// Prints the groups of the bytes and what remains between them, and writes over the first. It ends where one is not as wanted.
fn walk_16<W: Write>(out: &mut W, bytes: &mut [u8]) -> Result<bool, Error> {
    if std::str::from_utf8(bytes).is_err() {
        return Ok(false);
    }
    let mut groups = LinearStrGroupMut::new(bytes);
    let Some(first) = groups.next() else {
        return Ok(false);
    };
    write!(out, "row 16: {:?}", &*first)?;
    let (text, len) = (groups.as_str(), groups.remainder_len());
    write!(out, " {text} {len}")?;
    if &*first != FIRST.as_slice() || text != REMAINDER || len != 4 {
        return Ok(false);
    }
    first[0] = 0xFF;
    let Some(second) = groups.next() else {
        return Ok(false);
    };
    writeln!(out, " {:?} None", &*second)?;
    Ok(&*second == SECOND.as_slice() && groups.next().is_none())
}
