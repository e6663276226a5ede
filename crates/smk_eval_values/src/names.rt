//! The names that stand in a pattern, and those that have values.

ghost use Rattle.std.specs.Prelude.{◌≡◌, option_map};
ghost use Rattle.smk_eval_values.specs.Letters as spec;
ghost use Rattle.smk_eval_values.specs.Expanding.{has_values, unknown};

use crate::choices::Choices;
use crate::reading::Piece;

// Whether the piece is the name.
#[tactic(auto, using(crate::proofs::Standing::stands_plain, crate::proofs::Standing::stands_name))]
fn is_name(piece: &Piece, name: &str) -> bool
    ensures { result ≡ spec.stands (spec.piece_letters piece.now) name.now }
{
    match piece {
        Piece::Plain(_) => false,
        Piece::Name(other) => other.as_str() == name,
    }
}

/// Whether the name stands in the pattern.
#[tactic(auto, using(crate::proofs::Standing::stands_more, crate::proofs::Standing::stands_end))]
pub(crate) fn stands(pieces: &[Piece], name: &str) -> bool
    ensures { result ≡ spec.stands (spec.letters_of pieces.now) name.now }
{
    for piece in pieces {
        if is_name(piece, name) {
            return true;
        }
    }
    false
}

// Whether the name has values.
fn has_values(choices: &[Choices], name: &str) -> bool
    ensures { result ≡ has_values choices.now name.now }
{
    for choice in choices {
        if choice.name.as_str() == name {
            return true;
        }
    }
    false
}

// The name that the piece is, where it has no values.
fn unknown_in<'p>(piece: &'p Piece, choices: &[Choices]) -> Option<&'p str>
    ensures { option_map (λ n. n.now) result ≡ unknown choices.now (spec.piece_letters piece.now) }
{
    match piece {
        Piece::Plain(_) => None,
        Piece::Name(name) => {
            if has_values(choices, name.as_str()) {
                None
            } else {
                Some(name.as_str())
            }
        }
    }
}

/// The first name of the pattern that has no values.
#[tactic(auto, using(crate::proofs::Standing::unknown_later, crate::proofs::Standing::unknown_here, crate::proofs::Standing::unknown_end))]
pub(crate) fn unknown<'p>(pieces: &'p [Piece], choices: &[Choices]) -> Option<&'p str>
    ensures { option_map (λ n. n.now) result ≡ unknown choices.now (spec.letters_of pieces.now) }
{
    for piece in pieces {
        if let Some(name) = unknown_in(piece, choices) {
            return Some(name);
        }
    }
    None
}
