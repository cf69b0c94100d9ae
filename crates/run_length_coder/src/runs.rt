//! Runs of equal bytes.
ghost use Rattle.std.specs.Prelude.{◌<◌};

use std::io;
use std::io::Write;

// So many bytes are written at once.
const BLOCK: usize = 65536;

/// A byte, and how often it stands there in a row: at least once.
#[derive(Clone, Copy, Debug, PartialEq, Eq)]
pub struct Run {
    pub byte: u8,
    pub count: usize,
    pub ghost counted: { 0 < count },
}

impl Run {
    ghost use Rattle.std.specs.Prelude.{OnOk};
    ghost use Rattle.std.specs.Io.KnownBytes.{Appends};
    ghost use Rattle.run_length_coder.specs.Coding.{copies};

    /// Writes the bytes of the run, at most 64 KiB at once, which it puts into the room.
    pub fn write_bytes<W: Write>(self, room: &mut Vec<u8>, out: &mut W) -> io::Result<()>
        ensures { OnOk result (Appends (W.contents out.old) (W.contents out.new) (copies (self.byte, self.count))) }
    {
        room.clear();
        room.resize(self.count.min(BLOCK), self.byte)?;
        let mut left = self.count;
        while left > 0 {
            let len = left.min(room.len());
            out.write_all(&room[..len])?;
            left -= len;
        }
        Ok(())
    }
}
