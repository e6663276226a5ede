//! A cursor over the symbols of a statement or a directive.

ghost use Rattle.std.specs.Prelude.{◌≡◌, ◌<◌, length, IfSome, Ok};
ghost use Rattle.smk_parse_expr.specs.Symbols as spec;
ghost use Rattle.smk_parse_expr.specs.Symbols.{Reads};

use crate::symbol::{ParseFault, Sign, Symbol, is_unsupported, place_of, sees, word_of};
use std::marker::Model;

/// What is left of the symbols. Contracts see the list of it. The last symbol ends the statement or directive, and is never
/// taken, so that a fault at the end has a place.
#[derive(Drop)]
pub struct Cursor<'a> {
    rest: &'a [Symbol],
}

impl<'a> Model for Cursor<'a> {
    ghost use Rattle.std.specs.Prelude.{List};
    ghost use Rattle.smk_parse_expr.specs.declared.symbol.Symbol.{Symbol as Meaning};

    ghost Value = { List Meaning };

    ghost view = { λ c. c.rest.now };
}

impl<'a> Cursor<'a> {
    /// All of these symbols.
    pub fn new(rest: &'a [Symbol]) -> Cursor<'a>
        ensures { result ≡ rest.now }
    {
        Cursor { rest }
    }

    /// The symbols that are left, lent.
    pub fn ahead(&self) -> &'a [Symbol]
        ensures { result.now ≡ self.now }
    {
        self.rest
    }

    /// How many symbols are left.
    pub fn left(&self) -> usize
        ensures { result ≡ length self.now }
    {
        self.rest.len()
    }

    /// Takes one symbol, if one is left.
    pub fn take(&mut self)
        ensures { self.new ≡ spec.next self.old }
    {
        if let [_, rest @ ..] = self.rest {
            self.rest = rest;
        }
    }

    /// The place of the next symbol, or 0 where none is left.
    pub fn here(&self) -> u64
        ensures { result ≡ spec.here self.now }
    {
        match self.rest {
            [] => 0,
            [first, ..] => place_of(first),
        }
    }

    /// Why an expression does not go on with the next symbol: `Unsupported` at a word of Python, else `Unexpected`.
    pub fn refuse(&self) -> ParseFault
        ensures { result ≡ spec.refusal self.now }
    {
        match self.rest {
            [Symbol::Name(at, word), rest @ ..] => {
                if is_unsupported(word_of(word), rest) {
                    ParseFault::Unsupported(*at)
                } else {
                    ParseFault::Unexpected(*at)
                }
            }
            _ => ParseFault::Unexpected(self.here()),
        }
    }

    /// Whether the sign comes next.
    pub fn sees(&self, sign: Sign) -> bool
        ensures { result ≡ spec.sees sign self.now }
    {
        sees(self.rest, sign)
    }

    /// Takes the sign, if it comes next, and says whether it did.
    pub fn eat(&mut self, sign: Sign) -> bool
        ensures { spec.eat sign self.old ≡ Ok (result, self.new) }
    {
        let found = self.sees(sign);
        if found {
            self.take();
        }
        found
    }

    /// Takes the sign. The fault of `refuse` where another symbol comes next.
    #[tactic(auto, unfolding(crate::specs::Symbols::expect))]
    pub fn expect(&mut self, sign: Sign) -> Result<(), ParseFault>
        ensures { Reads (spec.expect sign self.old) result self.new }
    {
        if self.sees(sign) {
            self.take();
            Ok(())
        } else {
            Err(self.refuse())
        }
    }

    /// Whether the line's end comes next.
    pub fn at_end(&self) -> bool
        ensures { result ≡ spec.at_end self.now }
    {
        matches!(
            self.rest,
            [] | [
                Symbol::Newline(_) | Symbol::Indent(_) | Symbol::Dedent(_),
                ..
            ]
        )
    }

    /// Wants the line's end to come next, and leaves it. The fault of `refuse` where another symbol comes next.
    #[tactic(auto, unfolding(crate::specs::Symbols::end))]
    pub fn end(&self) -> Result<(), ParseFault>
        ensures { Reads (spec.end self.now) result self.now }
    {
        if self.at_end() {
            Ok(())
        } else {
            Err(self.refuse())
        }
    }
}
