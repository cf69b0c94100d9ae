//! The words, numbers and marks of a text, by the classes of its bytes.
ghost use Rattle.std.specs.List.{AllByRecursion};
ghost use Rattle.std.specs.Prelude.{◌≡◌, ◌+◌, ◌++◌, ℕ, List, flat_map, length, map, IfOk, OnOk, None};
ghost use Rattle.std.specs.Str.{IsCharBoundary};
ghost use Rattle.slice_group_simd.specs.declared.AsciiClass.TheVariants.{Letter};
ghost use Rattle.slice_group_simd.specs.Counted.{class_count, same_class};
ghost use Rattle.slice_group_by.specs.Offsets.{with_offsets};
ghost use Rattle.slice_group_by.specs.Split.{last, split};
ghost use Rattle.slice_group_stream.specs.Streams.{kept_of, with_part};

use slice_group_by::laws::{groups_stand, sees_pieces, texts_stand};
use slice_group_by::{GroupAdapters, LinearStrGroupByKey, StrGroupBy};
use slice_group_simd::{AsciiClass, AsciiClasses, GroupByClass, LinearClassGroup, count_classes};
use slice_group_stream::StreamGroups;
use slice_group_stream::laws::parts_join;
use std::alloc::{AllocError, Global};
use std::io;

/// Prints each word, number and mark with its span: `word 0..4`, `number 5..9` and `mark 9..10` of `port 8080;`.
pub fn print_tokens(rt: &impl Print, text: &[u8]) -> io::Result<()> {
    let tokens = text.linear_class_group::<AsciiClasses>();
    for (class, (start, token)) in tokens.with_offsets().with_keys() {
        let end = start + token.len();
        match class {
            AsciiClass::Letter => println!(rt; "word {start}..{end}")?,
            AsciiClass::Digit => println!(rt; "number {start}..{end}")?,
            AsciiClass::Other => println!(rt; "mark {start}..{end}")?,
            AsciiClass::Space => {}
        }
    }
    Ok(())
}

/// The words, numbers, marks and gaps, each with the byte at which it begins.
pub fn tokens(alloc: Global, text: &[u8]) -> Result<Vec<(usize, &[u8])>, AllocError>
    ensures { IfOk result
        (λ tokens. map (λ token. (token.0, token.1.now)) tokens.items ≡ with_offsets 0 (split same_class text.now)) }
{
    let tokens = LinearClassGroup::<AsciiClasses>::new(text).with_offsets();
    sees_pieces(&tokens);
    groups_stand(&tokens);
    tokens.collect(alloc)
}

/// The words of a text and what stands between them, each with the byte at which it begins. They begin and end between characters.
pub fn words(alloc: Global, text: &str) -> Result<Vec<(usize, &str)>, AllocError>
    ensures { IfOk result (λ words. AllByRecursion (λ word. IsCharBoundary text.now word.0
        × IsCharBoundary text.now (word.0 + length word.1.now)) words.items) }
{
    let words = LinearStrGroupByKey::new(text, |c| c.is_alphanumeric()).with_offsets();
    texts_stand(&words);
    words.collect(alloc)
}

/// What stands behind the first word: `(x)` of `f(x)`.
pub fn after_first_word(text: &str) -> &str {
    let mut words = text.linear_group_by_key(|c| c.is_alphanumeric());
    words.next();
    &text[words.offset()..]
}

/// How many words there are.
pub fn count_words(text: &[u8]) -> usize
    ensures { result ≡ class_count Letter None text.now }
{
    count_classes(None, text).letters
}

/// The tokens of bytes that come in blocks, each whole in a vector of its own: the pieces of all bytes.
pub fn tokens_of_blocks(alloc: Global, blocks: &[&[u8]]) -> Result<Vec<Vec<u8>>, AllocError>
    ensures { IfOk result (λ tokens. map (λ token. token.items) tokens.items
        ≡ split same_class (flat_map (λ block. block.now) blocks.now)) }
{
    let mut stream = StreamGroups::new();
    let mut tokens = Vec::new(alloc);
    for block in blocks {
        add_block(alloc, &mut stream, block, &mut tokens)?;
    }
    Ok(tokens)
}

// Adds what a block has of the tokens.
fn add_block(
    alloc: Global,
    stream: &mut StreamGroups<u8>,
    block: &[u8],
    tokens: &mut Vec<Vec<u8>>,
) -> Result<(), AllocError>
    ensures { OnOk result ((came : List ℕ) → kept_of stream.old ≡ last came
        → map (λ token. token.items) tokens.old.items ≡ split same_class came
        → (kept_of stream.new ≡ last (came ++ block.now))
        × (map (λ token. token.items) tokens.new.items ≡ split same_class (came ++ block.now))) }
{
    let parts = stream.class_parts::<AsciiClasses>(block);
    parts_join(&parts);
    for (begins, part) in parts {
        add_token(alloc, tokens, begins, part)?;
    }
    Ok(())
}

// Adds a part: a token more, or more of the last.
fn add_token(
    alloc: Global,
    tokens: &mut Vec<Vec<u8>>,
    begins: bool,
    part: &[u8],
) -> Result<(), AllocError>
    ensures { OnOk result (map (λ token. token.items) tokens.new.items
        ≡ with_part (map (λ token. token.items) tokens.old.items) (begins, part.now)) }
{
    if begins {
        let mut token = Vec::new(alloc);
        token.extend_from_slice(part)?;
        tokens.push(token)?;
    } else if let Some(token) = tokens.last_mut() {
        token.extend_from_slice(part)?;
    }
    Ok(())
}
