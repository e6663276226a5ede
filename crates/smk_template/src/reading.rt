//! The symbols of a template.

ghost use Rattle.std.specs.Prelude.{◌≡◌, ◌<◌, ◌≤◌, ◌∷◌, IsUtf8, length, slice_index, drop, true, false};
ghost use Rattle.smk_template.specs.Templates as spec;
ghost use Rattle.smk_template.specs.Symbols.{symbol_of};

/// What begins at a brace.
#[derive(Drop)]
pub enum Symbol<'t> {
    /// One opening brace.
    Opening,
    /// One closing brace.
    Closing,
    /// A field, by what stands between its braces.
    Field(&'t str),
    /// A brace that belongs to none, with what was read after it.
    Loose(&'t str),
}

// The byte at this place, or 0 after the end.
fn byte(text: &[u8], at: usize) -> u8
    ensures { result ≡ slice_index text.now at }
{
    match text.get(at) {
        Some(byte) => *byte,
        None => 0,
    }
}

/// How many bytes stand before the first brace.
pub fn first_brace(text: &[u8]) -> usize
    ensures value { result ≡ spec.first_brace text.now }
    ensures within { result ≤ length text.now }
    ensures brace { result < length text.now → spec.is_brace (slice_index text.now result) ≡ true }
{
    for (i, byte) in text.iter().enumerate() {
        if *byte == b'{' || *byte == b'}' {
            return i;
        }
    }
    text.len()
}

// Whether the same brace follows the brace.
fn is_doubled(brace: u8, after: &[u8]) -> bool
    requires { spec.is_brace brace ≡ true }
    ensures value { result ≡ spec.is_doubled brace after.now }
    ensures within { result ≡ true → 0 < length after.now }
    ensures ascii { result ≡ true → slice_index after.now 0 < 128 }
{
    match after {
        [] => false,
        [first, ..] => *first == brace,
    }
}

// The brace.
fn one_brace(brace: u8) -> Symbol<'static>
    requires { spec.is_brace brace ≡ true }
    ensures { symbol_of result ≡ spec.Plain brace }
{
    if brace == b'{' {
        Symbol::Opening
    } else {
        Symbol::Closing
    }
}

// What begins at the opening brace in front, and what follows it.
fn opened(text: &str) -> (Symbol<'_>, &str)
    requires some { 0 < length text.now }
    requires brace { slice_index text.now 0 ≡ 123 }
    requires alone { spec.is_doubled 123 (drop 1 text.now) ≡ false }
    ensures read { spec.symbols text.now ≡ symbol_of result.0 ∷ spec.symbols result.1.now }
    ensures shorter { length result.1.now < length text.now }
    ensures utf8 { IsUtf8 result.1.now }
{
    let after = &text[1..];
    let inside = first_brace(after.as_bytes());
    if byte(after.as_bytes(), inside) == b'}' {
        (Symbol::Field(&after[..inside]), &after[inside + 1..])
    } else {
        (Symbol::Loose(&text[..inside + 1]), &after[inside..])
    }
}

/// What begins at the brace in front, and what follows it.
pub fn symbol_in(text: &str) -> (Symbol<'_>, &str)
    requires some { 0 < length text.now }
    requires brace { spec.is_brace (slice_index text.now 0) ≡ true }
    ensures read { spec.symbols text.now ≡ symbol_of result.0 ∷ spec.symbols result.1.now }
    ensures shorter { length result.1.now < length text.now }
    ensures utf8 { IsUtf8 result.1.now }
{
    let brace = byte(text.as_bytes(), 0);
    let after = &text[1..];
    if is_doubled(brace, after.as_bytes()) {
        return (one_brace(brace), &after[1..]);
    }
    if brace == b'{' {
        return opened(text);
    }
    (Symbol::Loose(&text[..1]), after)
}
