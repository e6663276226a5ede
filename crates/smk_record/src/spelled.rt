//! Values that have one spelling, and are read from it again.

ghost use Rattle.std.specs.Prelude.{◌≡◌, ◌++◌, ℕ, List as Items, Option, OnOk, string_bytes};
ghost use Rattle.smk_record.specs.Spelling.{text as text_spelling, num, sum as sum_spelling, list as list_spelling, pair, values, stamp, out, out_item, member, letter};
ghost use Rattle.smk_record.specs.Reading.{Gives, text_in, path_in, some_in, list_in, flag_in, summed_in, stamp_in, pair_in, values_in, out_in, out_item_in, member_in};

use crate::bytes::{digits_of, number, sum, text};
use crate::record::{Member, Stamp};
use crate::stop::Stop;
use smk_base::{List, Pair, PathFault, PathText, Sum, Text};
use smk_world::{Kind, Out, OutItem, Values};
use std::alloc::{AllocError, Global};
use std::str;

/// A value with one spelling.
pub(crate) trait Spelled: Drop {
    ghost spells: { Self → Items ℕ };

    ghost takes: { Items ℕ → Option (Self × Items ℕ) };

    /// The value that the front of the bytes spells, and the bytes after it.
    fn read(alloc: Global, bytes: &[u8]) -> Result<(Self, &[u8]), Stop>
        ensures { Gives (λ x. (x.0, x.1.now)) result (takes bytes.now) };

    /// Adds the spelling to the text.
    fn push_to(&self, text: &mut String) -> Result<(), AllocError>
        ensures { OnOk result (string_bytes text.new ≡ string_bytes text.old ++ spells self.now) };
}

/// Adds a number and a line end.
pub(crate) fn push_number(text: &mut String, number: u64) -> Result<(), AllocError>
    ensures { OnOk result (string_bytes text.new ≡ string_bytes text.old ++ num number) }
{
    writeln!(text, "{number}")
}

// Adds a text after its length.
fn push_text(text: &mut String, word: &str) -> Result<(), AllocError>
    ensures { OnOk result (string_bytes text.new ≡ string_bytes text.old ++ text_spelling word.now) }
{
    let length = word.len();
    writeln!(text, "{length}:{word}")
}

impl Spelled for Text {
    ghost spells = { text_spelling };

    ghost takes = { text_in };

    fn read(alloc: Global, bytes: &[u8]) -> Result<(Text, &[u8]), Stop> {
        match text(bytes) {
            Ok((word, rest)) => Ok((Text::of(alloc, word)?, rest)),
            Err(stop) => Err(stop),
        }
    }

    fn push_to(&self, text: &mut String) -> Result<(), AllocError> {
        push_text(text, self.as_str())
    }
}

impl Spelled for PathText {
    ghost spells = { text_spelling };

    ghost takes = { path_in };

    #[tactic(auto, unfolding(crate::specs::Reading::path_in))]
    fn read(alloc: Global, bytes: &[u8]) -> Result<(PathText, &[u8]), Stop> {
        match text(bytes) {
            Ok((word, rest)) => match PathText::read(alloc, word) {
                Ok(path) => Ok((path, rest)),
                Err(PathFault::BadPath) => Err(Stop::Unread),
                Err(PathFault::OutOfMemory) => Err(Stop::OutOfMemory),
            },
            Err(stop) => Err(stop),
        }
    }

    fn push_to(&self, text: &mut String) -> Result<(), AllocError> {
        push_text(text, self.as_str())
    }
}

impl Spelled for Pair {
    ghost spells = { pair };

    ghost takes = { pair_in };

    #[tactic(auto, unfolding(crate::specs::Reading::pair_in))]
    fn read(alloc: Global, bytes: &[u8]) -> Result<(Pair, &[u8]), Stop> {
        let (name, rest) = Text::read(alloc, bytes)?;
        let (value, rest) = Text::read(alloc, rest)?;
        Ok((Pair { name, value }, rest))
    }

    fn push_to(&self, text: &mut String) -> Result<(), AllocError> {
        self.name.push_to(text)?;
        self.value.push_to(text)
    }
}

impl Spelled for Values {
    ghost spells = { values };

    ghost takes = { values_in };

    #[tactic(auto, unfolding(crate::specs::Reading::values_in))]
    fn read(alloc: Global, bytes: &[u8]) -> Result<(Values, &[u8]), Stop> {
        let (name, rest) = Text::read(alloc, bytes)?;
        let (values, rest) = Spelled::read(alloc, rest)?;
        Ok((Values { name, values }, rest))
    }

    fn push_to(&self, text: &mut String) -> Result<(), AllocError> {
        self.name.push_to(text)?;
        self.values.push_to(text)
    }
}

// Adds the SHA-256 and a line end.
fn push_sum(text: &mut String, sum: &Sum) -> Result<(), AllocError>
    ensures { OnOk result (string_bytes text.new ≡ string_bytes text.old ++ sum_spelling sum.now) }
{
    let digits = digits_of(sum);
    match str::from_utf8(&digits) {
        Ok(word) => writeln!(text, "{word}"),
        Err(_) => unreachable!(),
    }
}

// A time, and the SHA-256 after it.
#[tactic(auto, unfolding(crate::specs::Reading::summed_in))]
fn summed(bytes: &[u8]) -> Result<((u64, Sum), &[u8]), Stop>
    ensures { Gives (λ x. (x.0, x.1.now)) result (summed_in bytes.now) }
{
    let (time, rest) = number(b'\n', bytes)?;
    let (sum, rest) = sum(rest)?;
    Ok(((time, sum), rest))
}

impl Spelled for Stamp {
    ghost spells = { stamp };

    ghost takes = { stamp_in };

    #[tactic(auto, unfolding(crate::specs::Reading::stamp_in))]
    fn read(_alloc: Global, bytes: &[u8]) -> Result<(Stamp, &[u8]), Stop> {
        match bytes {
            [b'T', rest @ ..] => {
                let (time, rest) = number(b'\n', rest)?;
                Ok((Stamp::Time(time), rest))
            }
            [b'S', rest @ ..] => {
                let ((time, sum), rest) = summed(rest)?;
                Ok((Stamp::Sum(time, sum), rest))
            }
            [b'M', rest @ ..] => {
                let (serial, rest) = number(b'\n', rest)?;
                Ok((Stamp::Made(serial), rest))
            }
            _ => Err(Stop::Unread),
        }
    }

    fn push_to(&self, text: &mut String) -> Result<(), AllocError> {
        match self {
            Stamp::Time(time) => writeln!(text, "T{time}"),
            Stamp::Sum(time, sum) => {
                writeln!(text, "S{time}")?;
                push_sum(text, sum)
            }
            Stamp::Made(serial) => writeln!(text, "M{serial}"),
        }
    }
}

// Whether a folder stands here, and the bytes after the letter that says so.
fn flag(bytes: &[u8]) -> Result<(bool, &[u8]), Stop>
    ensures { Gives (λ x. (x.0, x.1.now)) result (flag_in bytes.now) }
{
    match bytes {
        [b'D', rest @ ..] => Ok((true, rest)),
        [b'F', rest @ ..] => Ok((false, rest)),
        _ => Err(Stop::Unread),
    }
}

// Adds the letter of a folder or a file.
fn push_flag(text: &mut String, folder: bool) -> Result<(), AllocError>
    ensures { OnOk result (string_bytes text.new ≡ string_bytes text.old ++ letter folder) }
{
    text.push_str(if folder { "D" } else { "F" })
}

impl Spelled for Out {
    ghost spells = { out };

    ghost takes = { out_in };

    #[tactic(auto, unfolding(crate::specs::Reading::out_in))]
    fn read(alloc: Global, bytes: &[u8]) -> Result<(Out, &[u8]), Stop> {
        let (folder, rest) = flag(bytes)?;
        let (path, rest) = Spelled::read(alloc, rest)?;
        let kind = if folder { Kind::Folder } else { Kind::Plain };
        Ok((Out { path, kind }, rest))
    }

    fn push_to(&self, text: &mut String) -> Result<(), AllocError> {
        push_flag(text, self.kind == Kind::Folder)?;
        self.path.push_to(text)
    }
}

impl Spelled for OutItem {
    ghost spells = { out_item };

    ghost takes = { out_item_in };

    #[tactic(auto, unfolding(crate::specs::Reading::out_item_in))]
    fn read(alloc: Global, bytes: &[u8]) -> Result<(OutItem, &[u8]), Stop> {
        let (name, rest) = Text::read(alloc, bytes)?;
        let (outs, rest) = Spelled::read(alloc, rest)?;
        Ok((OutItem { name, outs }, rest))
    }

    fn push_to(&self, text: &mut String) -> Result<(), AllocError> {
        self.name.push_to(text)?;
        self.outs.push_to(text)
    }
}

impl Spelled for Member {
    ghost spells = { member };

    ghost takes = { member_in };

    #[tactic(auto, unfolding(crate::specs::Reading::member_in))]
    fn read(alloc: Global, bytes: &[u8]) -> Result<(Member, &[u8]), Stop> {
        let (folder, rest) = flag(bytes)?;
        let (name, rest) = Spelled::read(alloc, rest)?;
        Ok((Member { folder, name }, rest))
    }

    fn push_to(&self, text: &mut String) -> Result<(), AllocError> {
        push_flag(text, self.folder)?;
        self.name.push_to(text)
    }
}

// So many values, one after the other.
fn some_of<T: Spelled>(alloc: Global, count: u64, bytes: &[u8]) -> Result<(List<T>, &[u8]), Stop>
    ensures { Gives (λ x. (x.0, x.1.now)) result (some_in T.takes count bytes.now) }
{
    let mut values = List::new(alloc);
    let mut rest = bytes;
    for _ in 0..count {
        let (value, after) = T::read(alloc, rest)?;
        values.push(value)?;
        rest = after;
    }
    Ok((values, rest))
}

impl<T: Spelled> Spelled for List<T> {
    ghost spells = { list_spelling T.spells };

    ghost takes = { list_in T.takes };

    #[tactic(auto, unfolding(crate::specs::Reading::list_in))]
    fn read(alloc: Global, bytes: &[u8]) -> Result<(List<T>, &[u8]), Stop> {
        let (count, rest) = number(b'\n', bytes)?;
        some_of(alloc, count, rest)
    }

    fn push_to(&self, text: &mut String) -> Result<(), AllocError> {
        push_number(text, self.len() as u64)?;
        for value in self.as_slice() {
            value.push_to(text)?;
        }
        Ok(())
    }
}
