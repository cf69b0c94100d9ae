//! Groups of a stream, run once.
use slice_group_stream::StreamGroups;

// The lengths of the parts of three blocks, and of the groups that they make; how often the predicate is asked.
fn by_predicate(blocks: [&[u8]; 3]) -> ([usize; 6], usize) {
    let mut stream = StreamGroups::new();
    let mut lens = [0usize; 6];
    let mut group = 0usize;
    let mut asked = 0usize;
    for block in blocks {
        let same = |a: &u8, b: &u8| {
            asked = asked.saturating_add(1);
            a == b
        };
        for (begins, part) in stream.parts_by(block, same) {
            if begins {
                group = group.saturating_add(1);
            }
            if let Some(len) = lens.get_mut(group) {
                *len = len.saturating_add(part.len());
            }
        }
    }
    (lens, asked)
}

#[test]
fn group_goes_on_over_blocks(rt: HostRuntime) {
    assert_eq!(rt;
        by_predicate([b"aab", b"bc", b"ccd"]),
        ([0, 2, 2, 3, 1, 0], 7)
    );
}

#[test]
fn empty_block_ends_no_group(rt: HostRuntime) {
    assert_eq!(rt; by_predicate([b"aab", b"", b"ba"]), ([0, 2, 2, 1, 0, 0], 4));
}
