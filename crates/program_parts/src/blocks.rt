//! Blocks of a stream.
ghost use Rattle.std.specs.Prelude.{◌<◌, IfOk, vec_len};
ghost use Rattle.std.specs.Io.{ReadsAtMost};
ghost use Rattle.std.specs.Io.KnownBytes.{ReadConsumes};

use crate::failure::IoFailure;
use std::alloc::{AllocError, Global};
use std::io::Read;

/// How many bytes are read at once.
const BLOCK_LEN: usize = 65536;

/// Room for a block.
pub fn new_block(alloc: Global) -> Result<Vec<u8>, AllocError>
    ensures { IfOk result (λ block. 0 < vec_len block) }
{
    vec![in alloc; 0; BLOCK_LEN]
}

/// Reads the next bytes of this file into the front of the buffer, and gives back how many: none only at the end, or where the
/// buffer has no room.
pub fn read_block<'a, R: Read>(
    file: &'a str,
    input: &mut R,
    buffer: &mut [u8],
) -> Result<usize, IoFailure<'a>>
    ensures bound { ReadsAtMost result buffer.new }
    ensures bytes { ReadConsumes (R.remaining input.old) (R.remaining input.new) result buffer.new }
{
    match input.read(buffer) {
        Ok(len) => Ok(len),
        Err(error) => Err(IoFailure::of_read(file, error)),
    }
}
