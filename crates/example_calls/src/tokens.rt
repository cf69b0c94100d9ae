//! Tokens of an input of any size.
ghost use Rattle.std.specs.Prelude.{◌==◌, ◌||◌};
ghost use Rattle.std.specs.Char.{is_ascii_alphanumeric};

use slice_group_simd::{AsciiClasses, ByteClasses, LinearClassGroup};
use slice_group_stream::StreamGroups;
use std::io;
use std::io::Read;

/// Prints each token of an input that is UTF-8, whole, also one that goes on over several blocks: words, numbers and
/// marks, each on a line. In memory stand one block and one token.
pub fn print_tokens<R: Read>(rt: &(impl Print + AllocGlobal), input: &mut R) -> io::Result<()> {
    let mut stream = StreamGroups::new();
    let (mut block, mut token) = ([0; 4096], Vec::new(rt.alloc()));
    for _ in 0..u64::MAX {
        let len = input.read(&mut block)?;
        if len == 0 {
            break;
        }
        for (begins, part) in stream.class_parts::<AsciiClasses>(&block[..len]) {
            if begins {
                print_token(rt, &token)?;
                token.clear();
            }
            token.extend_from_slice(part)?;
        }
    }
    print_token(rt, &token)
}

// A token, but for white space.
fn print_token(rt: &impl Print, token: &[u8]) -> io::Result<()> {
    match str::from_utf8(token) {
        Ok(text) if !text.trim().is_empty() => println!(rt; "token {text}"),
        _ => Ok(()),
    }
}

/// Prints what these give.
pub fn print_all(rt: &(impl Print + AllocGlobal)) -> io::Result<()> {
    let first: &[u8] = b"po";
    let second: &[u8] = b"rt 80";
    let third: &[u8] = b"80;";
    print_tokens(rt, &mut first.chain(second).chain(third))?;
    print_token(rt, longest_identifier(b"let max_len = 80;"))
}

/// Classes of bytes: those of identifiers, and all others.
pub enum Identifiers {}

impl ByteClasses for Identifiers {
    type Class = bool;

    ghost class_of = { λ byte. is_ascii_alphanumeric byte || byte == 95 };

    fn class(byte: u8) -> bool {
        byte.is_ascii_alphanumeric() || byte == b'_'
    }
}

/// The longest identifier of a text, or nothing if there is none.
pub fn longest_identifier(text: &[u8]) -> &[u8] {
    LinearClassGroup::<Identifiers>::new(text)
        .filter(|token| Identifiers::class(token[0]))
        .max_by_key(|token| token.len())
        .unwrap_or(&[])
}
