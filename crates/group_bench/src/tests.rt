//! The lines as they are written, of rows that differ too, and through writers with too little room.
use crate::rows::run;
use bench_rows::lines::{write_groups, write_texts};
use std::io;
use std::io::Write;

const LINES: &str = "row 1: [1, 1, 1] [3, 3] [2, 2, 2] None\n\
row 2: [1, 1, 1] [2, 2, 2] [3, 3] None None\n\
row 3: [1, 2, 3] [2, 3] None\n\
row 4: None None\n\
row 5: [1] None None\n\
row 6: [1, 1, 1] [3, 3] [2, 2, 2] None None\n\
row 7: [3, 3] [2, 2, 2] [1, 1, 1] None\n\
row 8: Ok(9) Err(7) Err(13) in 1..=4 Err(0) Ok(9) Err(7) Err(13) in 1..=4\n\
row 9: aaaa bbbbb 饰饰 cccc None\n\
row 10: ab\n\
row 11: boundary\n\
row 12: 5 5 None\n\
row 13: [7, 8] [9, 10] None\n\
row 14: [0, 0, 1, 1, 1, 2] [1] [2, 4] [5, 7] [8, 8] None\n\
row 15: 2\n\
row 16: [97] éé 4 [195, 169, 195, 169] None\n\
row 17: [1, 2, 3, 4, 5] None\n\
row 18: [1]\n\
row 19: [1, 1] [1] [2] [2, 2] None\n";

#[test]
fn writes_the_lines(rt: HostRuntime) {
    let mut bytes = [0u8; 604];
    assert_eq!(rt; bytes.len(), LINES.len());
    let mut rest: &mut [u8] = &mut bytes;
    assert!(rt; matches!(run(&mut rest), Ok(true)));
    assert_eq!(rt; bytes.as_slice(), LINES.as_bytes());
}

#[test]
fn ends_at_a_fault_of_the_writer(rt: HostRuntime) {
    for room in 0..604 {
        let mut bytes = [0u8; 604];
        let mut rest: &mut [u8] = &mut bytes[..room];
        assert!(rt; run(&mut rest).is_err(), "with room for {room} bytes");
    }
}

// Takes so many writes, fails once, and takes all then.
#[derive(Drop)]
struct Failing<'a> {
    writes: usize,
    fails: bool,
    rest: &'a mut [u8],
}

impl Write for Failing<'_> {
    fn write(&mut self, buffer: &[u8]) -> io::Result<usize> {
        if self.writes == 0 && self.fails {
            self.fails = false;
            return Err(io::Error::from(io::ErrorKind::BrokenPipe));
        }
        self.writes = self.writes.saturating_sub(1);
        self.rest.write(buffer)
    }

    fn flush(&mut self) -> io::Result<()> {
        Ok(())
    }
}

// What is written behind a fault would stand in the place of what was not.
#[test]
fn writes_nothing_behind_a_fault(rt: HostRuntime) {
    let mut is_whole = false;
    for writes in 0..1000 {
        let mut bytes = [0u8; 604];
        let mut out = Failing {
            writes,
            fails: true,
            rest: &mut bytes,
        };
        let ended = run(&mut out);
        is_whole = out.fails;
        let left = out.rest.len();
        assert!(rt; matches!(ended, Ok(true)) == is_whole && (left == 0) == is_whole);
        assert!(rt; LINES.as_bytes().starts_with(&bytes[..604 - left.min(604)]));
        if is_whole {
            break;
        }
    }
    assert!(rt; is_whole);
}

#[test]
fn says_which_row_differs(rt: HostRuntime) {
    let mut bytes = [0u8; 41];
    let mut rest: &mut [u8] = &mut bytes;
    let group: [Option<&'static [i32]>; 1] = [Some(&[1])];
    assert!(rt; matches!(write_groups(&mut rest, 7, &[None], &group, true), Ok(false)));
    assert!(rt; matches!(write_groups(&mut rest, 8, &group, &group, false), Ok(false)));
    assert!(rt; matches!(write_groups(&mut rest, 9, &group, &group, true), Ok(true)));
    assert_eq!(rt;
        bytes.as_slice(),
        b"row 7: differs\nrow 8: differs\nrow 9: [1]\n".as_slice()
    );
}

#[test]
fn says_which_row_of_texts_differs(rt: HostRuntime) {
    let mut bytes = [0u8; 45];
    let mut rest: &mut [u8] = &mut bytes;
    assert!(rt;
        matches!(
            write_texts(&mut rest, 7, &[None], &[Some("a")], true),
            Ok(false)
        )
    );
    assert!(rt;
        matches!(
            write_texts(&mut rest, 8, &[Some("a")], &[Some("a")], false),
            Ok(false)
        )
    );
    assert!(rt;
        matches!(
            write_texts(&mut rest, 9, &[Some("é"), None], &[Some("é"), None], true),
            Ok(true)
        )
    );
    assert_eq!(rt;
        bytes.as_slice(),
        "row 7: differs\nrow 8: differs\nrow 9: é None\n".as_bytes()
    );
}
