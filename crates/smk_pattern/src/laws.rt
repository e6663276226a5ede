//! Laws of the definitions.

ghost use Rattle.smk_pattern.specs.Bound.{BoundIsBinding};
ghost use Rattle.smk_pattern.specs.Filling.{FillIsFilled};
ghost use Rattle.smk_pattern.specs.Written.{ReadingIsGrammar};

/// The binding that is computed for a path is there exactly where some values fit, and it is the one whose wildcards are longest, the
/// first one first.
pub fn bound_is_binding()
    ensures { BoundIsBinding }
{}

/// What `Pattern::read` reads is what the grammar of patterns has, with the same parts, wildcards and constraints.
pub fn reading_is_grammar()
    ensures { ReadingIsGrammar }
{}

/// What `fill` gives for a pattern that was read is its text with each wildcard replaced by the value of its name.
pub fn fill_is_filled()
    ensures { FillIsFilled }
{}
