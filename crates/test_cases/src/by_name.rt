//! The Rust crate's tests of groups of equal elements, under their names, for each family.
use slice_group_by::{BinaryGroup, ExponentialGroup, LinearGroup};

fn is_group(group: Option<&[u8]>, wanted: &str) -> bool {
    match group {
        Some(group) => group == wanted.as_bytes(),
        None => wanted == "-",
    }
}

// Whether the calls on groups of this type answer so: over a word, whose letters are the elements, by `F` at the front, `B` at the
// back and `L` of `last` on new groups, with `-` for `None`.
macro_rules! answers {
    ($groups:ident, $word:expr, $calls:expr, $answers:expr) => {{
        let mut groups = $groups::new($word.as_bytes());
        for (call, wanted) in $calls.bytes().zip($answers.split(' ')) {
            let group = match call {
                b'F' => groups.next(),
                b'B' => groups.next_back(),
                _ => $groups::new($word.as_bytes()).last(),
            };
            if !is_group(group, wanted) {
                return false;
            }
        }
        $calls.len() == $answers.split(' ').count()
    }};
}

fn linear(word: &str, calls: &str, answers: &str) -> bool {
    answers!(LinearGroup, word, calls, answers)
}

fn binary(word: &str, calls: &str, answers: &str) -> bool {
    answers!(BinaryGroup, word, calls, answers)
}

fn exponential(word: &str, calls: &str, answers: &str) -> bool {
    answers!(ExponentialGroup, word, calls, answers)
}

fn searching(word: &str, calls: &str, answers: &str) -> bool {
    binary(word, calls, answers) && exponential(word, calls, answers)
}

fn each_family(word: &str, calls: &str, answers: &str) -> bool {
    linear(word, calls, answers) && searching(word, calls, answers)
}

#[test]
fn last_of_nothing(rt: HostRuntime) {
    assert!(rt; each_family("", "L", "-"));
}

#[test]
fn one_big_group(rt: HostRuntime) {
    assert!(rt; each_family("1111", "FF", "1111 -"));
}

#[test]
fn two_equal_groups(rt: HostRuntime) {
    assert!(rt; each_family("11112222", "FFF", "1111 2222 -"));
}

#[test]
fn two_little_equal_groups(rt: HostRuntime) {
    assert!(rt; each_family("12", "FFF", "1 2 -"));
}

#[test]
fn three_groups(rt: HostRuntime) {
    assert!(rt; linear("11133222", "FFFF", "111 33 222 -"));
    assert!(rt; searching("11122233", "FFFF", "111 222 33 -"));
}

#[test]
fn three_little_groups(rt: HostRuntime) {
    assert!(rt; linear("132", "FFFF", "1 3 2 -"));
    assert!(rt; searching("123", "FFFF", "1 2 3 -"));
}

#[test]
fn last_three_little_groups(rt: HostRuntime) {
    assert!(rt; linear("132", "L", "2"));
    assert!(rt; searching("123", "L", "3"));
}

#[test]
fn last_three_groups(rt: HostRuntime) {
    assert!(rt; linear("11133222", "L", "222"));
    assert!(rt; searching("11122233", "L", "33"));
}

#[test]
fn back_empty_slice(rt: HostRuntime) {
    assert!(rt; each_family("", "B", "-"));
}

#[test]
fn back_one_little_group(rt: HostRuntime) {
    assert!(rt; each_family("1", "BBF", "1 - -"));
}

#[test]
fn back_three_little_groups(rt: HostRuntime) {
    assert!(rt; linear("132", "BBBB", "2 3 1 -"));
    assert!(rt; searching("123", "BBBB", "3 2 1 -"));
}

#[test]
fn back_three_groups(rt: HostRuntime) {
    assert!(rt; linear("11133222", "BBBB", "222 33 111 -"));
    assert!(rt; searching("11122233", "BBBB", "33 222 111 -"));
}

#[test]
fn double_ended_dont_cross(rt: HostRuntime) {
    assert!(rt; linear("11133222", "FBFBF", "111 222 33 - -"));
    assert!(rt; searching("11122233", "FBFBF", "111 33 222 - -"));
}

#[test]
fn fused_iterator(rt: HostRuntime) {
    assert!(rt; each_family("123", "FFFFF", "1 2 3 - -"));
}

#[test]
fn back_fused_iterator(rt: HostRuntime) {
    assert!(rt; each_family("123", "BBBBB", "3 2 1 - -"));
}
