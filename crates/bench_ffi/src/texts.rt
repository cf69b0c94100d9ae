//! The walks over texts.
#![tactic(auto)]

ghost use Rattle.std.specs.Prelude.{◌≡◌};
ghost use Rattle.std.specs.Str.{IsUtf8};

use slice_group_by::{LinearStrGroup, LinearStrGroupMut};

// Bytes that are known to be UTF-8, as a text: the walk is timed, and not the test.
#[inline]
fn text_of(bytes: &[u8]) -> &str
    requires { IsUtf8 bytes.now }
    ensures { result.now ≡ bytes.now }
{
    unsafe { std::str::from_utf8_unchecked(bytes) }
}

#[unsafe(no_mangle)]
pub extern "C" fn text_front(bytes: &[u8]) -> usize
    requires { IsUtf8 bytes.now }
{
    lengths!(LinearStrGroup::new(text_of(bytes)))
}

#[unsafe(no_mangle)]
pub extern "C" fn text_mut_front(bytes: &mut [u8]) -> usize
    requires { IsUtf8 bytes.old }
{
    lengths!(LinearStrGroupMut::new(bytes))
}

#[unsafe(no_mangle)]
pub extern "C" fn text_back(bytes: &[u8]) -> usize
    requires { IsUtf8 bytes.now }
{
    lengths!(LinearStrGroup::new(text_of(bytes)).rev())
}

#[unsafe(no_mangle)]
pub extern "C" fn text_mut_back(bytes: &mut [u8]) -> usize
    requires { IsUtf8 bytes.old }
{
    lengths!(LinearStrGroupMut::new(bytes).rev())
}

#[unsafe(no_mangle)]
pub extern "C" fn text_both_ends(bytes: &[u8]) -> usize
    requires { IsUtf8 bytes.now }
{
    lengths_from_both_ends!(LinearStrGroup::new(text_of(bytes)), bytes.len())
}
