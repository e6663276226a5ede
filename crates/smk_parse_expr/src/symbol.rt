//! Symbols: the tokens of a workflow file with what they stand for.

ghost use Rattle.std.specs.Prelude.{◌≡◌};
ghost use Rattle.smk_parse_expr.specs.declared.symbol.ParseFault.TheVariants.{OutOfMemory};
ghost use Rattle.smk_parse_expr.specs.Symbols as spec;

use smk_base::{OutOfMemory as Refused, Text};
use std::alloc::{AllocError, AllocFailed};

/// The signs `: , = ( ) [ ] . +` and `>`.
#[derive(Clone, Copy, PartialEq, Eq)]
pub enum Sign {
    Colon,
    Comma,
    Equals,
    Open,
    Close,
    OpenSquare,
    CloseSquare,
    Point,
    Plus,
    Greater,
}

/// A token with its value, each with its place in the source.
#[derive(Drop)]
pub enum Symbol {
    Name(u64, Text),
    Number(u64, u64),
    /// A text or a numeral that is no number.
    Text(u64, Text),
    Sign(u64, Sign),
    Newline(u64),
    Indent(u64),
    Dedent(u64),
}

/// Why symbols are not what the grammar reads. Each but the last has the place of the token at which it stands.
#[derive(Clone, Copy, PartialEq, Eq)]
pub enum ParseFault {
    /// The grammar does not go on with this token.
    Unexpected(u64),
    /// This word is of Python and not of this language.
    Unsupported(u64),
    /// This word was given before.
    Doubled(u64),
    OutOfMemory,
}

impl From<Refused> for ParseFault {
    ghost from_gives = { λ _ e. e ≡ OutOfMemory };

    fn from(_: Refused) -> ParseFault {
        ParseFault::OutOfMemory
    }
}

impl From<AllocError> for ParseFault {
    ghost from_gives = { λ _ e. e ≡ OutOfMemory };

    fn from(_: AllocError) -> ParseFault {
        ParseFault::OutOfMemory
    }
}

impl<T: Drop> From<AllocFailed<T>> for ParseFault {
    ghost from_gives = { λ _ e. e ≡ OutOfMemory };

    fn from(_: AllocFailed<T>) -> ParseFault {
        ParseFault::OutOfMemory
    }
}

/// What a name means where an expression may begin.
#[derive(Clone, Copy, PartialEq, Eq)]
pub enum Keyword {
    True,
    False,
    Config,
    Rules,
    /// `temp`, `protected` and `directory`.
    Flag,
    Expand,
    FromCheckpoint,
    /// `lambda`, `if`, `for`, `not`, `and` and `or`.
    Python,
    Other,
}

/// The place of the symbol in the source.
pub fn place_of(symbol: &Symbol) -> u64
    ensures { result ≡ spec.place_of symbol.now }
{
    match symbol {
        Symbol::Name(at, _)
        | Symbol::Number(at, _)
        | Symbol::Text(at, _)
        | Symbol::Sign(at, _)
        | Symbol::Newline(at)
        | Symbol::Indent(at)
        | Symbol::Dedent(at) => *at,
    }
}

/// What the word means.
pub fn word_of(word: &Text) -> Keyword
    ensures { result ≡ spec.word_of word.now }
{
    match word.as_str() {
        "True" => Keyword::True,
        "False" => Keyword::False,
        "config" => Keyword::Config,
        "rules" => Keyword::Rules,
        "temp" | "protected" | "directory" => Keyword::Flag,
        "expand" => Keyword::Expand,
        "from_checkpoint" => Keyword::FromCheckpoint,
        "lambda" | "if" | "for" | "not" | "and" | "or" => Keyword::Python,
        _ => Keyword::Other,
    }
}

/// Whether the sign comes next.
pub fn sees(rest: &[Symbol], sign: Sign) -> bool
    ensures { result ≡ spec.sees sign rest.now }
{
    match rest {
        [Symbol::Sign(_, found), ..] => *found == sign,
        _ => false,
    }
}

/// Whether what follows a name makes a call, a text with a prefix or a method of it.
pub fn goes_on(rest: &[Symbol]) -> bool
    ensures { result ≡ spec.goes_on rest.now }
{
    match rest {
        [Symbol::Text(_, _), ..] => true,
        _ => sees(rest, Sign::Open) || sees(rest, Sign::Point),
    }
}

/// Whether the word before these symbols is of Python and not of this language.
pub fn is_unsupported(word: Keyword, rest: &[Symbol]) -> bool
    ensures { result ≡ spec.is_unsupported word rest.now }
{
    match word {
        Keyword::True | Keyword::False => false,
        Keyword::Config | Keyword::Other => goes_on(rest),
        Keyword::Rules => goes_on(rest) && !sees(rest, Sign::Point),
        Keyword::Flag | Keyword::Expand | Keyword::FromCheckpoint => {
            goes_on(rest) && !sees(rest, Sign::Open)
        }
        Keyword::Python => true,
    }
}
