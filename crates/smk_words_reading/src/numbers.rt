//! Values with numbers and names in them.

ghost use Rattle.std.specs.Prelude.{◌≡◌, ◌||◌, IfOk, string_bytes, decimal, option_map};
ghost use Rattle.std.specs.List.{list_all};
ghost use Rattle.smk_words_reading.specs.Asking as spec;
ghost use Rattle.smk_words_reading.specs.Asks as asks;
ghost use Rattle.smk_words_reading.specs.Reading.{split_at};

use smk_base::{Amount, OutOfMemory, Pair, PathFault, PathText, Text};
use std::alloc::{AllocError, Global};

/// The most that a bound on a resource may be.
const MOST_OF_A_RESOURCE: u64 = 4_294_967_296;

/// The greatest seed and the greatest size of what is generated.
const MOST_SEED: u64 = 4_294_967_295;

const MOST_SIZE: u64 = 2000;

// The text of the number.
fn spelling(alloc: Global, number: u64) -> Result<String, AllocError>
    ensures { IfOk result (λ text. string_bytes text ≡ decimal number) }
{
    format!(in alloc; "{number}")
}

// Whether the word is how the number is written, and the number is one from the least to the most.
fn is_number(
    alloc: Global,
    word: &str,
    number: u64,
    least: u64,
    most: u64,
) -> Result<bool, OutOfMemory>
    ensures { IfOk result (λ good. good ≡ spec.is_number least most word.now number) }
{
    let written = spelling(alloc, number)?;
    Ok(written.as_str() == word && (least <= number && number <= most))
}

/// The number that the word is, in decimal without a sign and without leading zeros, where it is one from the least to the most.
pub(crate) fn number_in(
    alloc: Global,
    word: &str,
    least: u64,
    most: u64,
) -> Result<Option<u64>, OutOfMemory>
    ensures { IfOk result (λ found. found ≡ spec.number_in least most word.now) }
{
    match word.parse::<u64>() {
        Ok(number) => {
            let good = is_number(alloc, word, number, least, most)?;
            if good { Ok(Some(number)) } else { Ok(None) }
        }
        Err(_) => Ok(None),
    }
}

/// The path that the word is.
pub(crate) fn path_in(alloc: Global, word: &str) -> Result<Option<PathText>, OutOfMemory>
    ensures { IfOk result (λ found. found ≡ spec.path_in word.now) }
{
    match PathText::read(alloc, word) {
        Ok(path) => Ok(Some(path)),
        Err(PathFault::BadPath) => Ok(None),
        Err(PathFault::OutOfMemory) => Err(OutOfMemory),
    }
}

// Whether a name may begin with the byte.
fn is_letter(byte: u8) -> bool
    ensures { result ≡ asks.is_letter byte }
{
    (65 <= byte && byte <= 90) || ((97 <= byte && byte <= 122) || byte == b'_')
}

// Whether the byte is a digit.
fn is_digit(byte: u8) -> bool
    ensures { result ≡ asks.is_digit byte }
{
    48 <= byte && byte <= 57
}

// Whether each byte is a letter or a digit.
fn are_of_name(bytes: &[u8]) -> bool
    ensures { result ≡ list_all (λ b. asks.is_letter b || asks.is_digit b) bytes.now }
{
    for byte in bytes {
        if !(is_letter(*byte) || is_digit(*byte)) {
            return false;
        }
    }
    true
}

// Whether the text is a letter or `_`, and then letters, digits and `_`.
fn is_name(text: &str) -> bool
    ensures { result ≡ asks.is_name text.now }
{
    match text.as_bytes().split_first() {
        Some((first, rest)) => is_letter(*first) && are_of_name(rest),
        None => false,
    }
}

/// The text before the first `=` and the text behind it.
pub(crate) fn split_sign(word: &str) -> Option<(&str, &str)>
    ensures { option_map (λ p. (p.0.now, p.1.now)) result ≡ split_at 61 word.now }
{
    word.split_once('=')
}

// The text before the first `:` and the text behind it.
fn split_colon(word: &str) -> Option<(&str, &str)>
    ensures { option_map (λ p. (p.0.now, p.1.now)) result ≡ split_at 58 word.now }
{
    word.split_once(':')
}

/// The pair that `KEY=VALUE` is. The value is all behind the first `=`.
pub(crate) fn pair_in(alloc: Global, word: &str) -> Result<Option<Pair>, OutOfMemory>
    ensures { IfOk result (λ found. found ≡ spec.pair_in word.now) }
{
    match split_sign(word) {
        Some((name, value)) => {
            if !is_name(name) {
                return Ok(None);
            }
            Ok(Some(Pair {
                name: Text::of(alloc, name)?,
                value: Text::of(alloc, value)?,
            }))
        }
        None => Ok(None),
    }
}

// The amount with this name and this number.
fn amount_of(alloc: Global, name: &str, number: &str) -> Result<Option<Amount>, OutOfMemory>
    ensures { IfOk result (λ found. found ≡ spec.amount_named name.now (spec.number_in 0 4294967296 number.now)) }
{
    match number_in(alloc, number, 0, MOST_OF_A_RESOURCE)? {
        Some(count) => Ok(Some(Amount {
            name: Text::of(alloc, name)?,
            count,
        })),
        None => Ok(None),
    }
}

/// The amount that `NAME=N` is.
pub(crate) fn amount_in(alloc: Global, word: &str) -> Result<Option<Amount>, OutOfMemory>
    ensures { IfOk result (λ found. found ≡ spec.amount_in word.now) }
{
    match split_sign(word) {
        Some((name, number)) => {
            if !is_name(name) {
                return Ok(None);
            }
            amount_of(alloc, name, number)
        }
        None => Ok(None),
    }
}

// The two numbers, where both are within their limits.
fn both_of(alloc: Global, seed: &str, size: &str) -> Result<Option<(u64, u64)>, OutOfMemory>
    ensures { IfOk result (λ found. found ≡ spec.both (spec.number_in 0 4294967295 seed.now) (spec.number_in 1 2000 size.now)) }
{
    let Some(first) = number_in(alloc, seed, 0, MOST_SEED)? else {
        return Ok(None);
    };
    let Some(second) = number_in(alloc, size, 1, MOST_SIZE)? else {
        return Ok(None);
    };
    Ok(Some((first, second)))
}

/// The seed and the size that `SEED:SIZE` is.
pub(crate) fn seed_size_in(alloc: Global, word: &str) -> Result<Option<(u64, u64)>, OutOfMemory>
    ensures { IfOk result (λ found. found ≡ spec.seed_size_in word.now) }
{
    match split_colon(word) {
        Some((seed, size)) => both_of(alloc, seed, size),
        None => Ok(None),
    }
}
