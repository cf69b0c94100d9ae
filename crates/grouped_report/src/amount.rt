//! Amounts: exact decimal numbers, as whole numbers of billionths.
ghost use Rattle.std.specs.Prelude.{◌≡◌, ◌<◌, ◌/◌, ◌^◌, ◌++◌, length, IfSome, OnOk, ℤ, unsigned_abs, Option, Some};
ghost use Rattle.std.specs.List.{position};
ghost use Rattle.std.specs.Str.Parse.{starts_with_minus, without_leading_sign};
ghost use Rattle.program_parts.specs.Decimals.{digits_in};
ghost use Rattle.grouped_report.specs.Amounts.{amount_in, amount_of, billionths_of, is_point, size_of};
ghost use Rattle.grouped_report.specs.Amounts.{amount_text, digits_behind, size_text, sum_text};

use itoa::Buffer;
use program_parts::numbers::number_64;
use std::alloc::AllocError;

// So many billionths are one.
const ONE: u64 = 1_000_000_000;

/// What one program writes, another reads: an amount whose whole part is a number of 64 bits, and that there is none.
pub fn amounts_read_back()
    ensures amount { (z : ℤ) → unsigned_abs z / 10 ^ 9 < 2 ^ 64 → amount_of (amount_text z) ≡ Some z }
    ensures sum { (sum : Option ℤ) → IfSome sum (λ z. unsigned_abs z / 10 ^ 9 < 2 ^ 64) → amount_in (sum_text sum) ≡ Some sum }
{}

/// The amount that a field is, which is none for an empty field. The answer is `None` if the text is no amount.
pub fn read_amount(field: &[u8]) -> Option<Option<i128>>
    ensures { result ≡ amount_in field.now }
{
    if field.is_empty() {
        return Some(None);
    }
    Some(Some(parse_amount(field)?))
}

// The amount that a text is: a sign perhaps, digits, and perhaps a point and one to nine digits more.
fn parse_amount(text: &[u8]) -> Option<i128>
    ensures { result ≡ amount_of text.now }
{
    let (is_negative, digits) = cut_sign(text);
    let size = parse_size(digits)? as i128;
    Some(if is_negative { -size } else { size })
}

// Whether a minus stands first, and the text behind the sign, if it has one.
fn cut_sign(text: &[u8]) -> (bool, &[u8])
    ensures is_negative { result.0 ≡ starts_with_minus text.now }
    ensures digits { result.1.now ≡ without_leading_sign text.now }
{
    match text {
        [b'-', digits @ ..] => (true, digits),
        [b'+', digits @ ..] => (false, digits),
        _ => (false, text),
    }
}

// The size of an amount that a text with no sign is.
fn parse_size(text: &[u8]) -> Option<u128>
    ensures size { result ≡ size_of text.now }
    ensures small { IfSome result (λ size. size < 2 ^ 127) }
{
    let (whole, billionths) = match find_point(text) {
        Some(point) => (&text[..point], parse_billionths(&text[point + 1..])),
        None => (text, Some(0)),
    };
    Some(u128::from(parse_number(whole)?) * u128::from(ONE) + u128::from(billionths?))
}

// The place of the first point.
fn find_point(text: &[u8]) -> Option<usize>
    ensures place { result ≡ position is_point text.now }
    ensures within { IfSome result (λ point. point < length text.now) }
{
    text.iter().position(|byte| *byte == b'.')
}

// How many billionths one to nine digits behind a point are.
fn parse_billionths(digits: &[u8]) -> Option<u64>
    ensures value { result ≡ billionths_of digits.now }
    ensures small { IfSome result (λ n. n < 10 ^ 9) }
{
    if digits.len() > 9 {
        return None;
    }
    let number = parse_number(digits)?;
    Some(number * 10u64.pow(9 - digits.len() as u32))
}

// The number of 64 bits that a text is: one digit or more.
fn parse_number(text: &[u8]) -> Option<u64>
    ensures number { result ≡ digits_in 64 text.now }
    ensures small { IfSome result (λ n. n < 10 ^ length text.now) }
{
    match text {
        [b'+', ..] => None,
        _ => number_64(text),
    }
}

/// Puts the text of a sum behind a text: nothing if there is no amount.
pub fn push_sum(sum: Option<i128>, text: &mut Vec<u8>) -> Result<(), AllocError>
    ensures { OnOk result (text.new.items ≡ text.old.items ++ sum_text sum) }
{
    match sum {
        Some(amount) => push_amount(amount, text),
        None => Ok(()),
    }
}

// Puts the text of an amount behind a text: with no point if it is whole, and else with no zero at the end.
fn push_amount(amount: i128, text: &mut Vec<u8>) -> Result<(), AllocError>
    ensures { OnOk result (text.new.items ≡ text.old.items ++ amount_text amount) }
{
    if amount < 0 {
        text.push(b'-')?;
    }
    push_size(amount.unsigned_abs(), text)
}

// Puts the text of a size behind a text.
fn push_size(size: u128, text: &mut Vec<u8>) -> Result<(), AllocError>
    ensures { OnOk result (text.new.items ≡ text.old.items ++ size_text size) }
{
    let mut buffer = Buffer::new();
    text.extend_from_slice(buffer.format(size / u128::from(ONE)).as_bytes())?;
    let billionths = (size % u128::from(ONE)) as u64;
    if billionths > 0 {
        text.push(b'.')?;
        push_digits(billionths, text)?;
    }
    Ok(())
}

// Puts the digits behind the point of so many billionths, less than one.
#[tactic(auto, using(crate::proofs::Decimals::tens_pos, crate::proofs::Decimals::tens_grow, crate::proofs::Decimals::first_place))]
fn push_digits(mut billionths: u64, text: &mut Vec<u8>) -> Result<(), AllocError>
    requires { billionths < 10 ^ 9 }
    ensures { OnOk result (text.new.items ≡ text.old.items ++ digits_behind 9 billionths) }
{
    let mut places = 9;
    while billionths > 0 {
        places -= 1;
        let unit = 10u64.pow(places);
        text.push(b'0' + (billionths / unit) as u8)?;
        billionths %= unit;
    }
    Ok(())
}
