//! The second half of a field.

ghost use Rattle.std.specs.Prelude.{◌≡◌, ◌≤◌, length, true};
ghost use Rattle.std.specs.Str.{all_ascii_digits};
ghost use Rattle.smk_format.specs.Fields as spec;
ghost use Rattle.smk_format.specs.Found.{pick_of};

use std::str;

/// Which values a field asks for.
#[derive(Clone, Copy)]
pub(crate) enum Pick<'f> {
    All,
    /// Those of the item with this name.
    Named(&'f [u8]),
    /// Those at this place, from 0.
    Place(u64),
    /// What no field says.
    Strange,
}

// How many digits stand at the front.
fn digits_len(bytes: &[u8]) -> usize
    ensures within { result ≤ length bytes.now }
    ensures value { result ≡ spec.digits_len bytes.now }
{
    for (i, b) in bytes.iter().enumerate() {
        if !b.is_ascii_digit() {
            return i;
        }
    }
    bytes.len()
}

// The place that the digits spell.
#[tactic(auto, unfolding(crate::specs::Fields::place_of))]
fn place(digits: &[u8]) -> Pick<'_>
    requires { all_ascii_digits digits.now ≡ true }
    ensures { pick_of result ≡ spec.place_of digits.now }
{
    if digits.is_empty() || (digits.len() > 1 && digits[0] == b'0') {
        return Pick::Strange;
    }
    match str::from_utf8(digits) {
        Ok(text) => match text.parse::<u64>() {
            Ok(number) => Pick::Place(number),
            Err(_) => Pick::Strange,
        },
        Err(_) => Pick::Strange,
    }
}

// The place at the front, and a closing bracket behind it.
#[tactic(auto, unfolding(crate::specs::Fields::place_in))]
fn place_in(bytes: &[u8]) -> Pick<'_>
    ensures { pick_of result ≡ spec.place_in bytes.now }
{
    let (digits, after) = bytes.split_at(digits_len(bytes));
    if after == b"]".as_slice() {
        place(digits)
    } else {
        Pick::Strange
    }
}

/// What the second half of a field says.
pub(crate) fn pick_in(half: &[u8]) -> Pick<'_>
    ensures { pick_of result ≡ spec.pick_of half.now }
{
    match half {
        [] => Pick::All,
        [b'.', name @ ..] => Pick::Named(name),
        [b'[', rest @ ..] => place_in(rest),
        _ => Pick::Strange,
    }
}

/// How many bytes stand before the first `.` or `[`.
pub(crate) fn first_len(field: &[u8]) -> usize
    ensures value { result ≡ spec.first_len field.now }
    ensures within { result ≤ length field.now }
{
    for (i, byte) in field.iter().enumerate() {
        if *byte == b'.' || *byte == b'[' {
            return i;
        }
    }
    field.len()
}
