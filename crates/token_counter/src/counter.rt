//! Counts the tokens of a text in one pass over its blocks.
ghost use Rattle.std.specs.Prelude.{◌≡◌, ◌-◌, ◌^◌, ◌<◌, IfOk, IfSome};
ghost use Rattle.slice_group_simd.specs.declared.AsciiClass.{AsciiClass};
ghost use Rattle.slice_group_simd.specs.Counted.{count_of};
ghost use Rattle.token_counter.specs.Tokens.{token_count};

use program_parts::blocks::{new_block, read_block};
use program_parts::failure::IoFailure;
use slice_group_simd::{ClassCounter, ClassCounts};
use std::alloc::Global;
use std::io;
use std::io::Read;

/// The number of tokens of each class that the input, this file, has left, however the reads cut it. It keeps one block in
/// memory. A failed read ends it, and so do 2^64 - 1 tokens of a class.
pub fn count_tokens<'a, R: Read>(
    alloc: Global,
    file: &'a str,
    input: &mut R,
) -> Result<ClassCounts, IoFailure<'a>>
    ensures { IfOk result (λ counts. IfSome (R.remaining input.old)
        (λ text. (class : AsciiClass) → count_of class counts ≡ token_count class text)) }
{
    let mut block = new_block(alloc)?;
    let mut classes = ClassCounter::new();
    for _ in 0..u64::MAX {
        let len = read_block(file, input, &mut block)?;
        if len == 0 {
            let counts = exact(classes.counts())?;
            return Ok(counts);
        }
        classes.push(&block[..len]);
    }
    Err(IoFailure::from(io::Error::other("the input does not end")))
}

// The counts, if each is below the greatest number, at which a counter stays.
fn exact(counts: ClassCounts) -> io::Result<ClassCounts>
    ensures { IfOk result (λ same. (same ≡ counts) × ((class : AsciiClass) → count_of class counts < 2 ^ 64 - 1)) }
{
    let most = counts
        .letters
        .max(counts.digits)
        .max(counts.spaces)
        .max(counts.others);
    if most == usize::MAX {
        return Err(io::Error::other("there are too many tokens to be counted"));
    }
    Ok(counts)
}
