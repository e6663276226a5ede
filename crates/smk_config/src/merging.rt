//! One object over another.

ghost use Rattle.std.specs.Prelude.{◌≡◌, IfOk, Some, option_map};
ghost use Rattle.serde_json.specs.View.{view, members_view};
ghost use Rattle.smk_config.specs.Settings.{over, placed, members_in};

use serde_json::Value as Json;
use serde_json::value::Map;
use std::alloc::{AllocError, Global};

/// The members with the later ones over them.
#[cycle(merge)]
pub(crate) fn merged(
    alloc: Global,
    later: &Map<String, Json>,
    earlier: Map<String, Json>,
) -> Result<Map<String, Json>, AllocError>
    ensures { IfOk result (λ made. members_view made.entries ≡ over (members_view later.now.entries) (members_view earlier.entries)) }
{
    let mut made = earlier;
    for (key, value) in later.iter() {
        // What was there is taken out, for a null that is replaced at once.
        let was = made.insert(key.clone()?, Json::Null)?;
        let value = replaced(alloc, value, was)?;
        drop(made.insert(key.clone()?, value)?);
    }
    Ok(made)
}

// The later value in the place of the earlier one.
#[cycle(merge)]
fn replaced(alloc: Global, later: &Json, was: Option<Json>) -> Result<Json, AllocError>
    ensures { IfOk result (λ made. view made ≡ placed (view later.now) (option_map view was)) }
{
    match later {
        Json::Object(members) => {
            let made = merged(alloc, members, members_of(alloc, was))?;
            Ok(Json::Object(made))
        }
        other => other.clone(),
    }
}

// The members of an object, where it is one.
fn members_of(alloc: Global, was: Option<Json>) -> Map<String, Json>
    ensures { members_view result.entries ≡ members_in (option_map view was) }
{
    match was {
        Some(value) => members_of_value(alloc, value),
        None => Map::new(alloc),
    }
}

fn members_of_value(alloc: Global, value: Json) -> Map<String, Json>
    ensures { members_view result.entries ≡ members_in (Some (view value)) }
{
    match value {
        Json::Object(members) => members,
        _ => Map::new(alloc),
    }
}
