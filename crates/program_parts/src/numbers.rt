//! Numbers, read from bytes.
ghost use Rattle.std.specs.Prelude.{◌≡◌};
ghost use Rattle.program_parts.specs.Decimals.{number_in};

use fast_float::parse_u64;

/// The number of 64 bits that the bytes are the text of, as `parse` reads it: digits, and a plus may stand first.
#[tactic(auto, using(crate::proofs::Decimals::number_parsed))]
pub fn number_64(text: &[u8]) -> Option<u64>
    ensures { result ≡ number_in 64 text.now }
{
    parse_u64(text).ok()
}

/// The number of 8 bits.
#[tactic(auto, using(crate::proofs::Decimals::number_parsed))]
pub fn number_8(text: &[u8]) -> Option<u8>
    ensures { result ≡ number_in 8 text.now }
{
    u8::try_from(parse_u64(text).ok()?).ok()
}
