//! The rules above, by their names.

ghost use Rattle.std.specs.Prelude.{◌≡◌, ◌++◌, ◌∷◌, [], ℕ, List as Bytes, option_map, string_bytes, IfOk};
ghost use Rattle.smk_flow.specs.Checks.{rule_in};
ghost use Rattle.smk_eval.specs.Kept.{kept_text as kept, with_place};

use smk_base::{List, OutOfMemory};
use smk_flow::RulePart;
use std::alloc::Global;
use std::collections::BTreeMap;
use std::marker::Model;

/// Rules in order, and the place of the first of each name. Contracts see the rules.
#[derive(Drop)]
pub(crate) struct Above {
    parts: List<RulePart>,
    places: BTreeMap<String, usize>,
}

impl Model for Above {
    ghost use Rattle.std.specs.Prelude.{List};
    ghost use Rattle.smk_flow.specs.declared.rule.RulePart.{RulePart};
    ghost use Rattle.smk_eval.specs.Kept.{ArePlaced};

    ghost Value = { List RulePart };

    ghost view = { λ a. a.parts };

    ghost invariant = { λ a. ArePlaced a.places a.parts };
}

// The places with that of a name, unless it has one.
#[tactic(auto, using(crate::proofs::Placed::place_stays))]
fn with_place(
    places: BTreeMap<String, usize>,
    name: String,
    place: usize,
) -> Result<BTreeMap<String, usize>, OutOfMemory>
    ensures { IfOk result (λ more. (q : Bytes ℕ) → kept more q ≡ with_place (kept places) (string_bytes name) place q) }
{
    let mut places = places;
    if places.contains_key(name.as_str()) {
        return Ok(places);
    }
    places.insert(name, place)?;
    Ok(places)
}

impl Above {
    /// No rules.
    pub(crate) fn new(alloc: Global) -> Above
        ensures { result ≡ [] }
    {
        Above {
            parts: List::new(alloc),
            places: BTreeMap::new(alloc),
        }
    }

    /// The first rule of this name.
    pub(crate) fn named(&self, name: &str) -> Option<&RulePart>
        ensures { option_map (λ r. r.now) result ≡ rule_in self.now name.now }
    {
        let Some(place) = self.places.get(name) else {
            return None;
        };
        self.parts.as_slice().get(*place)
    }

    /// The rules with one more. `OutOfMemory` where there is no memory for it.
    pub(crate) fn with(self, alloc: Global, part: RulePart) -> Result<Above, OutOfMemory>
        ensures { IfOk result (λ more. more ≡ self ++ part ∷ []) }
    {
        let name = String::from_str(alloc, part.name.as_str())?;
        let places = with_place(self.places, name, self.parts.len())?;
        let mut parts = self.parts;
        parts.push(part)?;
        Ok(Above { parts, places })
    }

    /// The rules in order.
    pub(crate) fn parts(self) -> List<RulePart>
        ensures { result ≡ self }
    {
        self.parts
    }
}
