//! Words of bytes that come in blocks, counted.
ghost use Rattle.std.specs.Prelude.{◌≡◌, ◌+◌, ◌-◌, ◌^◌, List, ◌++◌, ℕ, count_by, flat_map, min};
ghost use Rattle.slice_group_by.specs.Split.{last, split};
ghost use Rattle.slice_group_stream.specs.Streams.{kept_of};
ghost use Rattle.example_walks.specs.Words.{are_letters, is_word};

use slice_group_stream::StreamGroups;
use slice_group_stream::laws::parts_join;

/// How many words the blocks have together: how many pieces of letters all bytes have, at most the greatest number of
/// 64 bits.
pub fn count_words(blocks: &[&[u8]]) -> usize
    ensures { result
        ≡ min (count_by is_word (split are_letters (flat_map (λ block. block.now) blocks.now))) (2 ^ 64 - 1) }
{
    let mut stream = StreamGroups::new();
    let mut words = 0usize;
    for block in blocks {
        words = words.saturating_add(count_begun(&mut stream, block));
    }
    words
}

// How many words begin in the block.
fn count_begun(stream: &mut StreamGroups<u8>, block: &[u8]) -> usize
    ensures { (came : List ℕ) → kept_of stream.old ≡ last came
        → (kept_of stream.new ≡ last (came ++ block.now))
        × (min (count_by is_word (split are_letters (came ++ block.now))) (2 ^ 64 - 1)
        ≡ min (count_by is_word (split are_letters came) + result) (2 ^ 64 - 1)) }
{
    let parts = stream.parts_by(block, |a: &u8, b: &u8| {
        a.is_ascii_alphabetic() && b.is_ascii_alphabetic()
    });
    parts_join(&parts);
    let mut words = 0usize;
    for (begins, part) in parts {
        if begins && part[0].is_ascii_alphabetic() {
            words = words.saturating_add(1);
        }
    }
    words
}
