//! What tests the values of a wildcard.

ghost use Rattle.std.specs.Prelude.{◌≡◌, ◌↔◌, IsTrue, IfOk};
ghost use Rattle.smk_pattern.specs.Limits.{meets};
ghost use Rattle.smk_pattern.specs.Fitting.{Suits};

use crate::limit::Limit;
use regex::Matcher;
use smk_base::OutOfMemory;
use std::alloc::Global;
use std::marker::Model;

/// Tests values against a constraint.
#[derive(Drop)]
pub(crate) struct Tester<'r> {
    limit: &'r Limit,
    matcher: Matcher<'r>,
}

impl<'r> Model for Tester<'r> {
    ghost use Rattle.std.specs.Prelude.{List, ℕ};
    ghost use Rattle.smk_pattern.specs.Testers.{IsTesterOf};

    ghost Value = { List ℕ };

    ghost view = { λ a. a.limit.now };

    ghost invariant = { λ a. IsTesterOf a.limit.now a.matcher };
}

impl<'r> Tester<'r> {
    /// What tests values against the constraint.
    pub(crate) fn new(alloc: Global, limit: &'r Limit) -> Result<Tester<'r>, OutOfMemory>
        ensures { IfOk result (λ t. t ≡ limit.now) }
    {
        Ok(Tester {
            limit,
            matcher: limit.tester(alloc)?,
        })
    }

    /// Whether the value meets the constraint.
    pub(crate) fn passes(&mut self, value: &str) -> bool
        ensures meets { result ≡ meets self.old value.now }
        ensures same { self.new ≡ self.old }
    {
        self.matcher.is_match(value)
    }
}

/// Whether the value meets the constraint, or without one isn't empty.
pub(crate) fn suits(tester: &mut Option<Tester<'_>>, value: &str) -> bool
    ensures suits { IsTrue result ↔ Suits tester.old value.now }
    ensures same { tester.new ≡ tester.old }
{
    match tester {
        None => !value.is_empty(),
        Some(tester) => tester.passes(value),
    }
}
