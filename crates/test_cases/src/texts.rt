//! Groups of texts, for reading and for writing, case by case; first the Rust crate's tests, under their names.
ghost use Rattle.std.specs.Prelude.{◌<◌};
ghost use Rattle.std.specs.Str.{IsUtf8};

use crate::calls::{answers, answers_mut, gives, gives_mut, holds};
use slice_group_by::{
    LinearStrGroup, LinearStrGroupBy, LinearStrGroupByKey, LinearStrGroupByKeyMut,
    LinearStrGroupByMut, LinearStrGroupMut, StrGroupBy, StrGroupByMut,
};
use std::test::Fail;

type Text = Option<&'static str>;

const EASY: &str = "aaaabbbbbaacccc";

const EASY_GROUPS: [&str; 4] = ["aaaa", "bbbbb", "aa", "cccc"];

const EASY_GROUPS_REV: [&str; 4] = ["cccc", "aa", "bbbbb", "aaaa"];

#[test]
fn str_easy(rt: HostRuntime) {
    assert!(rt; gives(LinearStrGroup::new(EASY), &EASY_GROUPS));
}

#[test]
fn str_rev_easy(rt: HostRuntime) {
    assert!(rt; gives(LinearStrGroup::new(EASY).rev(), &EASY_GROUPS_REV));
}

#[test]
fn str_kanji(rt: HostRuntime) {
    let groups = LinearStrGroup::new("包包饰饰与与钥钥匙匙扣扣");
    assert!(rt; gives(groups, &["包包", "饰饰", "与与", "钥钥", "匙匙", "扣扣"]));
}

// Characters of Chinese, Japanese and Korean, by their blocks.
fn is_cjk(c: char) -> bool {
    matches!(
        c,
        '\u{2E80}'..='\u{2EFF}'
            | '\u{2F00}'..='\u{2FDF}'
            | '\u{3040}'..='\u{309F}'
            | '\u{30A0}'..='\u{30FF}'
            | '\u{3100}'..='\u{312F}'
            | '\u{3200}'..='\u{32FF}'
            | '\u{3400}'..='\u{4DBF}'
            | '\u{4E00}'..='\u{9FFF}'
            | '\u{F900}'..='\u{FAFF}'
    )
}

fn both_cjk_or_neither(a: char, b: char) -> bool {
    is_cjk(a) == is_cjk(b)
}

const ASCII_CJK: &str = "abc包包bbccdd饰饰";

#[test]
fn str_ascii_cjk(rt: HostRuntime) {
    let groups = LinearStrGroupBy::new(ASCII_CJK, both_cjk_or_neither);
    assert!(rt; gives(groups, &["abc", "包包", "bbccdd", "饰饰"]));
}

#[test]
fn str_rev_ascii_cjk(rt: HostRuntime) {
    let groups = LinearStrGroupBy::new(ASCII_CJK, both_cjk_or_neither);
    assert!(rt; gives(groups.rev(), &["饰饰", "bbccdd", "包包", "abc"]));
}

#[test]
fn str_mut_easy(rt: HostRuntime) {
    let mut bytes = *b"aaaabbbbbaacccc";
    let wanted = EASY_GROUPS.map(|group| group.as_bytes());
    assert!(rt; gives_mut(LinearStrGroupMut::new(&mut bytes), &wanted));
}

#[test]
fn str_mut_rev_easy(rt: HostRuntime) {
    let mut bytes = *b"aaaabbbbbaacccc";
    let wanted = EASY_GROUPS_REV.map(|group| group.as_bytes());
    assert!(rt; gives_mut(LinearStrGroupMut::new(&mut bytes).rev(), &wanted));
}

fn is_digit(c: char) -> bool {
    c >= '0' && c <= '9'
}

fn by_key_from_both_ends() -> [Text; 4] {
    const TEXT: &str = "aB1b";
    answers!(TEXT.linear_group_by_key(is_digit); next, next_back, next, next)
}

const OUTER: &str = "aaaabbbbb饰饰cccc";

fn outer_groups() -> bool {
    let mut groups = LinearStrGroup::new(OUTER);
    let outer = (groups.next(), groups.next_back());
    outer == (Some("aaaa"), Some("cccc"))
        && groups.as_str() == "bbbbb饰饰"
        && groups.remainder_len() == 11
}

#[test]
fn from_both_ends(rt: HostRuntime) {
    assert!(rt; by_key_from_both_ends() == [Some("aB"), Some("b"), Some("1"), None]);
    assert!(rt; outer_groups());
    assert_eq!(rt; LinearStrGroup::new("ab").size_hint(), (0, None));
}

fn ascends(a: char, b: char) -> bool {
    a < b
}

const ABCAB: &str = "abcab";

fn ascending_mut() -> bool {
    let mut bytes = *b"abcab";
    gives_mut(
        LinearStrGroupByMut::new(&mut bytes, ascends),
        &[b"abc", b"ab"],
    )
}

fn ascending_back_mut() -> bool {
    let mut bytes = *b"abcab";
    gives_mut(
        LinearStrGroupByMut::new(&mut bytes, ascends).rev(),
        &[b"ab", b"abc"],
    )
}

// A test that is not symmetric has the same groups from both ends.
#[test]
fn ascending_from_both_ends(rt: HostRuntime) {
    assert!(rt; gives(ABCAB.linear_group_by(ascends), &["abc", "ab"]));
    assert!(rt; gives(ABCAB.linear_group_by(ascends).rev(), &["ab", "abc"]));
    assert!(rt; ascending_mut() && ascending_back_mut());
}

// The group at the back, and the characters for whose keys the function was called, in order.
fn asked_at_the_back() -> (Text, [char; 3]) {
    let mut asked = [' '; 3];
    let mut groups = LinearStrGroupByKey::new("xy", |c: char| {
        asked = [asked[1], asked[2], c];
        c
    });
    let group = groups.next_back();
    (group, asked)
}

#[test]
fn calls_of_the_key_function(rt: HostRuntime) {
    assert_eq!(rt; asked_at_the_back(), (Some("y"), [' ', 'x', 'y']));
}

// By a predicate that may be called only where the left character is below the right one, and how often it was.
fn ascending_at_the_back() -> (Text, usize) {
    const TEXT: &str = "abcde";
    let mut questions = 0usize;
    let mut groups = TEXT.linear_group_by(
        |a: char, b: char| -> bool
            requires { a < b }
        {
            questions = questions.wrapping_add(1);
            true
        },
    );
    let group = groups.next_back();
    (group, questions)
}

#[test]
fn asks_the_left_character_first(rt: HostRuntime) {
    assert_eq!(rt; ascending_at_the_back(), (Some("abcde"), 4));
}

fn letters_and_digits(bytes: &mut [u8]) -> bool
    requires { IsUtf8 bytes.old }
{
    let mut groups = LinearStrGroupByKeyMut::new(bytes, is_digit);
    holds(groups.next(), b"ab")
        && groups.as_str() == "12é"
        && groups.remainder_len() == 4
        && holds(groups.next_back(), "é".as_bytes())
        && holds(groups.next(), b"12")
        && groups.next_back().is_none()
}

// Whether there is a group, of these bytes, which are written over.
fn filled(group: Option<&mut [u8]>, wanted: &[u8], with: u8) -> bool {
    match group {
        Some(group) => {
            let holds = *group == *wanted;
            group.fill(with);
            holds
        }
        None => false,
    }
}

fn fill_the_outer_ones(bytes: &mut [u8]) -> bool
    requires { IsUtf8 bytes.old }
{
    let mut groups = LinearStrGroupMut::new(bytes);
    let first = groups.next();
    let last = groups.next_back();
    let outer = filled(first, "é".as_bytes(), 0x80) & filled(last, "é".as_bytes(), 0x80);
    let rest = groups.as_str() == "a" && groups.remainder_len() == 1;
    let [middle, none] = answers_mut!(groups; next, next);
    outer && rest && middle == Some(b"a") && none.is_none()
}

#[test]
fn remainder_stays_text(rt: HostRuntime) -> Result<(), Fail> {
    let mut bytes = [0x61, 0x62, 0x31, 0x32, 0xC3, 0xA9];
    std::str::from_utf8(&bytes)?;
    assert!(rt; letters_and_digits(&mut bytes));
    let mut bytes = [0xC3, 0xA9, 0x61, 0xC3, 0xA9];
    std::str::from_utf8(&bytes)?;
    assert!(rt; fill_the_outer_ones(&mut bytes));
    assert_eq!(rt; bytes, [0x80, 0x80, 0x61, 0x80, 0x80]);
    Ok(())
}

fn call_methods(mut bytes: &mut [u8]) -> bool
    requires { IsUtf8 bytes.old }
{
    let _ = StrGroupByMut::linear_group_mut(&mut bytes).next();
    &*bytes == b"abb--".as_slice()
}

// No contract says what the input holds after an iterator is dropped.
#[test]
fn leaves_the_other_bytes(rt: HostRuntime) {
    let mut array = *b"abb--";
    assert!(rt; call_methods(&mut array));
    assert_eq!(rt; array, *b"abb--");
}
