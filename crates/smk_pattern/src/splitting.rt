//! The pieces of a text that is written as a pattern.

ghost use Rattle.std.specs.Prelude.{◌≡◌, ◌+◌, ◌<◌, ◌≤◌, ◌∷◌, ◌++◌, [], IfOk, OnOk, IsUtf8, IsCharBoundary, MatchOption, Some, None, length, take, drop, reverse, slice_index, true, false};
ghost use Rattle.smk_pattern.specs.Grammar.{is_balanced, is_blank};
ghost use Rattle.smk_pattern.specs.Reading.{trimmed, stripped, before_comma, after_comma, hole_of, plain_of, pieces};
ghost use Rattle.smk_pattern.specs.Splitting.{written_of, all_written, between, HasRead, Steps};

use smk_base::OutOfMemory;
use std::alloc::Global;

/// A piece as it is written: a text, or a wildcard with the constraint that stands in it.
#[derive(Drop)]
pub(crate) enum Written<'t> {
    Plain(&'t str),
    Hole(&'t str, Option<&'t str>),
}

// What stands from one place to another.
fn cut(text: &str, start: usize, end: usize) -> &str
    requires order { start ≤ end }
    requires from { IsCharBoundary text.now start }
    requires to { IsCharBoundary text.now end }
    ensures value { result.now ≡ between start end text.now }
    ensures utf8 { IsUtf8 result.now }
{
    &text[start..end]
}

// Whether the byte is a space or a tab.
fn is_blank(byte: u8) -> bool
    ensures { result ≡ is_blank byte }
{
    byte == b' ' || byte == b'\t'
}

// Without the blanks in front.
fn without_blanks(text: &str) -> &str
    ensures { result.now ≡ trimmed text.now }
{
    let bytes = text.as_bytes();
    let mut start = 0;
    while start < bytes.len() && is_blank(bytes[start]) {
        start += 1;
    }
    cut(text, start, text.len())
}

// Without the blanks at the end.
fn without_last_blanks(text: &str) -> &str
    ensures { result.now ≡ reverse (trimmed (reverse text.now)) }
{
    let bytes = text.as_bytes();
    let mut end = bytes.len();
    while end > 0 && is_blank(bytes[end - 1]) {
        end -= 1;
    }
    cut(text, 0, end)
}

// Without the blanks at both ends.
fn without_outer_blanks(text: &str) -> &str
    ensures { result.now ≡ stripped text.now }
{
    without_last_blanks(without_blanks(text))
}

// How many bytes stand before the first comma.
fn comma_place(bytes: &[u8]) -> usize
    ensures within { result ≤ length bytes.now }
    ensures before { before_comma bytes.now ≡ take result bytes.now }
    ensures comma { result < length bytes.now → slice_index bytes.now result ≡ 44 }
    ensures after { result < length bytes.now → after_comma bytes.now ≡ Some (trimmed (drop (result + 1) bytes.now)) }
    ensures absent { result ≡ length bytes.now → after_comma bytes.now ≡ None }
{
    let mut at = 0;
    while at < bytes.len() && bytes[at] != b',' {
        at += 1;
    }
    at
}

// The wildcard that stands as this between its braces.
fn hole(inside: &str) -> Written<'_>
    ensures { written_of result ≡ hole_of inside.now }
{
    let comma = comma_place(inside.as_bytes());
    if comma < inside.len() {
        Written::Hole(
            without_outer_blanks(cut(inside, 0, comma)),
            Some(without_blanks(cut(inside, comma + 1, inside.len()))),
        )
    } else {
        Written::Hole(without_outer_blanks(inside), None)
    }
}

/// Splits a text byte by byte.
#[derive(Drop)]
pub(crate) struct Splitter<'t> {
    text: &'t str,
    // The pieces that have ended.
    made: Vec<Written<'t>>,
    // How many braces are open.
    depth: usize,
    // Where the piece that hasn't ended starts.
    start: usize,
}

impl<'t> Splitter<'t> {
    // Ends a text before this place, unless it is empty.
    fn end_text(&mut self, at: usize) -> Result<(), OutOfMemory>
        requires order { self.old.start ≤ at }
        requires from { IsCharBoundary self.old.text.now self.old.start }
        requires to { IsCharBoundary self.old.text.now at }
        ensures made { OnOk result (all_written self.new.made.items
            ≡ all_written self.old.made.items ++ plain_of (reverse (between self.old.start at self.old.text.now))) }
        ensures same { OnOk result ((self.new.text ≡ self.old.text) × (self.new.depth ≡ self.old.depth) × (self.new.start ≡ self.old.start)) }
    {
        if self.start < at {
            self.made
                .push(Written::Plain(cut(self.text, self.start, at)))?;
        }
        Ok(())
    }

    // Takes an opening brace at this place.
    fn open(&mut self, at: usize) -> Result<(), OutOfMemory>
        requires read { HasRead self.old at }
        requires within { at < length self.old.text.now }
        requires byte { slice_index self.old.text.now at ≡ 123 }
        ensures read { OnOk result (HasRead self.new (at + 1)) }
        ensures text { OnOk result (self.new.text ≡ self.old.text) }
    {
        if self.depth > 0 {
            self.depth += 1;
            return Ok(());
        }
        self.end_text(at)?;
        self.start = at + 1;
        self.depth = 1;
        Ok(())
    }

    // Takes a closing brace at this place. Answers whether it closes one.
    fn close(&mut self, at: usize) -> Result<bool, OutOfMemory>
        requires read { HasRead self.old at }
        requires within { at < length self.old.text.now }
        requires byte { slice_index self.old.text.now at ≡ 125 }
        ensures step { IfOk result (λ good. Steps self.new (at + 1) good) }
        ensures text { OnOk result (self.new.text ≡ self.old.text) }
    {
        if self.depth == 0 {
            return Ok(false);
        }
        if self.depth > 1 {
            self.depth -= 1;
            return Ok(true);
        }
        self.made.push(hole(cut(self.text, self.start, at)))?;
        self.start = at + 1;
        self.depth = 0;
        Ok(true)
    }

    // Takes the byte at this place. Answers whether the braces can still be balanced.
    fn step(&mut self, at: usize, byte: u8) -> Result<bool, OutOfMemory>
        requires read { HasRead self.old at }
        requires within { at < length self.old.text.now }
        requires byte { slice_index self.old.text.now at ≡ byte }
        ensures step { IfOk result (λ good. Steps self.new (at + 1) good) }
        ensures text { OnOk result (self.new.text ≡ self.old.text) }
    {
        if byte == b'{' {
            self.open(at)?;
            return Ok(true);
        }
        if byte == b'}' {
            return self.close(at);
        }
        Ok(true)
    }
}

/// The pieces of the text, or `None` where its braces aren't balanced.
pub(crate) fn split(alloc: Global, text: &str) -> Result<Option<Vec<Written<'_>>>, OutOfMemory>
    ensures { IfOk result (λ found. MatchOption found (is_balanced 0 text.now ≡ false)
        (λ made. (is_balanced 0 text.now ≡ true) × (all_written made.items ≡ pieces text.now))) }
{
    let mut splitter = Splitter {
        text,
        made: Vec::new(alloc),
        depth: 0,
        start: 0,
    };
    for (at, byte) in text.as_bytes().iter().enumerate() {
        if !splitter.step(at, *byte)? {
            return Ok(None);
        }
    }
    if splitter.depth > 0 {
        return Ok(None);
    }
    splitter.end_text(text.len())?;
    Ok(Some(splitter.made))
}
