//! Patterns, and what they are made of.

ghost use Rattle.std.specs.Prelude.{◌≡◌, IfOk};
ghost use Rattle.smk_pattern.specs.Pieces.{part_of, parts_of, wildcard_of, wildcards_of};

use crate::limit::Limit;
use smk_base::{List, OutOfMemory, Pair, Text};
use std::alloc::Global;
use std::marker::Model;
use std::rc::Rc;

/// A piece of a pattern: a text, or a wildcard by its number.
#[derive(Drop)]
pub(crate) enum Piece {
    Literal(Text),
    Wild(usize),
}

/// A wildcard by its name, with its constraint.
#[derive(Drop)]
pub(crate) struct Wildcard {
    pub(crate) name: Text,
    pub(crate) limit: Option<Rc<Limit>>,
}

/// A text with wildcards, which have numbers in the order in which they first stand. Contracts see its parts and its wildcards, each
/// with the text of its constraint.
#[derive(Drop)]
pub struct Pattern {
    pub(crate) pieces: List<Piece>,
    pub(crate) wildcards: List<Wildcard>,
}

impl Model for Pattern {
    ghost use Rattle.smk_pattern.specs.Shapes.{Shape};
    ghost use Rattle.smk_pattern.specs.Pieces.{pattern_of, IsWellFormed};

    ghost Value = { Shape };

    ghost view = { λ a. pattern_of a.pieces a.wildcards };

    ghost invariant = { λ a. IsWellFormed a.pieces a.wildcards };
}

/// A value for each name.
pub type Binding = List<Pair>;

/// Why a text is no pattern.
#[derive(Drop)]
pub enum PatternFault {
    /// It isn't written as a pattern.
    BadPattern,
    /// The constraint of this name is none.
    BadConstraint(Text),
    /// There is no memory for the pattern, or for what `regex` makes of a constraint.
    OutOfMemory,
}

/// Why a pattern can't be filled.
#[derive(Drop)]
pub enum FillFault {
    /// This name has no value.
    UnknownWildcard(Text),
    /// There is no memory for the text.
    OutOfMemory,
}

// The same piece.
fn copy_piece(alloc: Global, piece: &Piece) -> Result<Piece, OutOfMemory>
    ensures { IfOk result (λ made. part_of made ≡ part_of piece.now) }
{
    match piece {
        Piece::Literal(text) => Ok(Piece::Literal(text.copy(alloc)?)),
        Piece::Wild(number) => Ok(Piece::Wild(*number)),
    }
}

// The same wildcard. What was made of its constraint is shared.
fn copy_wildcard(alloc: Global, wildcard: &Wildcard) -> Result<Wildcard, OutOfMemory>
    ensures { IfOk result (λ made. wildcard_of made ≡ wildcard_of wildcard.now) }
{
    let limit = match &wildcard.limit {
        None => None,
        Some(limit) => Some(limit.clone()?),
    };
    let name = wildcard.name.copy(alloc)?;
    Ok(Wildcard { name, limit })
}

fn copy_pieces(alloc: Global, pieces: &[Piece]) -> Result<List<Piece>, OutOfMemory>
    ensures { IfOk result (λ made. parts_of made ≡ parts_of pieces.now) }
{
    let mut made = List::new(alloc);
    for piece in pieces {
        made.push(copy_piece(alloc, piece)?)?;
    }
    Ok(made)
}

fn copy_wildcards(alloc: Global, wildcards: &[Wildcard]) -> Result<List<Wildcard>, OutOfMemory>
    ensures { IfOk result (λ made. wildcards_of made ≡ wildcards_of wildcards.now) }
{
    let mut made = List::new(alloc);
    for wildcard in wildcards {
        made.push(copy_wildcard(alloc, wildcard)?)?;
    }
    Ok(made)
}

impl Pattern {
    /// The same pattern, which shares what was made of its constraints. `OutOfMemory` where there is no memory for the texts.
    pub fn copy(&self, alloc: Global) -> Result<Pattern, OutOfMemory>
        ensures { IfOk result (λ made. made ≡ self.now) }
    {
        Ok(Pattern {
            pieces: copy_pieces(alloc, self.pieces.as_slice())?,
            wildcards: copy_wildcards(alloc, self.wildcards.as_slice())?,
        })
    }
}
