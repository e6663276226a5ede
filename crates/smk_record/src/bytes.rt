//! Numbers and texts at the front of bytes.

ghost use Rattle.std.specs.Prelude.{◌≡◌, ◌≤◌, length, true};
ghost use Rattle.std.specs.Str.{all_ascii_digits};
ghost use Rattle.hex.specs.Hex.{encode_lower};
ghost use Rattle.smk_record.specs.Reading.{Gives, digits_len, number_of, after_byte, number_in, sum_in, sum_of, text_in, text_of};

use crate::stop::Stop;
use hex::FromHex;
use smk_base::Sum;
use std::str;

// How many digits stand at the front.
fn digits_len(bytes: &[u8]) -> usize
    ensures within { result ≤ length bytes.now }
    ensures value { result ≡ digits_len bytes.now }
{
    for (i, b) in bytes.iter().enumerate() {
        if !b.is_ascii_digit() {
            return i;
        }
    }
    bytes.len()
}

// What stands after the byte.
fn after_byte(end: u8, bytes: &[u8]) -> Result<&[u8], Stop>
    ensures { Gives (λ rest. rest.now) result (after_byte end bytes.now) }
{
    match bytes {
        [b, rest @ ..] if *b == end => Ok(rest),
        _ => Err(Stop::Unread),
    }
}

// The number that the digits spell.
#[tactic(auto, unfolding(crate::specs::Reading::number_of))]
fn number_of(digits: &[u8]) -> Result<u64, Stop>
    requires { all_ascii_digits digits.now ≡ true }
    ensures { Gives (λ n. n) result (number_of digits.now) }
{
    if digits.is_empty() || (digits.len() > 1 && digits[0] == b'0') {
        return Err(Stop::Unread);
    }
    match str::from_utf8(digits) {
        Ok(text) => match text.parse::<u64>() {
            Ok(number) => Ok(number),
            Err(_) => Err(Stop::Unread),
        },
        Err(_) => Err(Stop::Unread),
    }
}

/// The number at the front, which this byte follows.
#[tactic(auto, unfolding(crate::specs::Reading::number_in))]
pub(crate) fn number(end: u8, bytes: &[u8]) -> Result<(u64, &[u8]), Stop>
    ensures { Gives (λ x. (x.0, x.1.now)) result (number_in end bytes.now) }
{
    let (digits, after) = bytes.split_at(digits_len(bytes));
    let rest = after_byte(end, after)?;
    Ok((number_of(digits)?, rest))
}

/// The lower-case digits of the SHA-256.
pub(crate) fn digits_of(sum: &Sum) -> [u8; 64]
    ensures { result ≡ encode_lower sum.now.0 }
{
    let mut digits = [0; 64];
    match hex::encode_to_slice(sum.0, &mut digits) {
        Ok(()) => digits,
        Err(_) => unreachable!(),
    }
}

// The SHA-256 that the lower-case digits spell.
#[tactic(auto, unfolding(crate::specs::Reading::sum_of))]
fn sum_of(digits: &[u8]) -> Result<Sum, Stop>
    ensures { Gives (λ sum. sum) result (sum_of digits.now) }
{
    match <[u8; 32] as FromHex>::from_hex(digits) {
        Ok(bytes) => {
            let sum = Sum(bytes);
            if digits_of(&sum).as_slice() == digits {
                Ok(sum)
            } else {
                Err(Stop::Unread)
            }
        }
        Err(_) => Err(Stop::Unread),
    }
}

/// The SHA-256 at the front, which a line end follows.
#[tactic(auto, using(crate::proofs::Digits::short_sum), unfolding(crate::specs::Reading::sum_in))]
pub(crate) fn sum(bytes: &[u8]) -> Result<(Sum, &[u8]), Stop>
    ensures { Gives (λ x. (x.0, x.1.now)) result (sum_in bytes.now) }
{
    if bytes.len() < 64 {
        return Err(Stop::Unread);
    }
    let (digits, after) = bytes.split_at(64);
    let rest = after_byte(b'\n', after)?;
    Ok((sum_of(digits)?, rest))
}

// So many bytes of text, and the line end after them.
#[tactic(auto, unfolding(crate::specs::Reading::text_of))]
fn text_of(length: u64, bytes: &[u8]) -> Result<(&str, &[u8]), Stop>
    ensures { Gives (λ x. (x.0.now, x.1.now)) result (text_of length bytes.now) }
{
    if length >= bytes.len() as u64 {
        return Err(Stop::Unread);
    }
    let (text, after) = bytes.split_at(length as usize);
    let rest = after_byte(b'\n', after)?;
    match str::from_utf8(text) {
        Ok(word) => Ok((word, rest)),
        Err(_) => Err(Stop::Unread),
    }
}

/// The text at the front, which its length precedes.
#[tactic(auto, unfolding(crate::specs::Reading::text_in))]
pub(crate) fn text(bytes: &[u8]) -> Result<(&str, &[u8]), Stop>
    ensures { Gives (λ x. (x.0.now, x.1.now)) result (text_in bytes.now) }
{
    let (length, rest) = number(b':', bytes)?;
    text_of(length, rest)
}
