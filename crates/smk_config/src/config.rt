//! Configurations.

ghost use Rattle.std.specs.Prelude.{◌≡◌, ◌≢◌, IfOk, OnOk, OnErr, Some, None, Err, IsUtf8, option_map, option_and_then};
ghost use Rattle.serde_json.specs.Data.{Data, no_members, string, object, put};
ghost use Rattle.serde_json.specs.Find.{get_member, as_object};
ghost use Rattle.serde_json.specs.View.{view, members_view};
ghost use Rattle.smk_config.specs.declared.fault.ConfigFault.{ConfigFault};
ghost use Rattle.smk_config.specs.Settings.{members, configured, over, under, given};

use crate::fault::ConfigFault;
use crate::merging::merged;
use crate::value::{Value, value_of};
use serde_json::Value as Json;
use serde_json::error::Category;
use serde_json::value::Map;
use smk_base::{List, OutOfMemory, Text};
use std::alloc::Global;

/// A JSON object. Contracts see its members, in the order of their keys, as `members`.
#[derive(Drop)]
pub struct Config {
    members: Map<String, Json>,
}

impl Config {
    /// The configuration without a key.
    pub fn new(alloc: Global) -> Config
        ensures { members result ≡ no_members }
    {
        Config {
            members: Map::new(alloc),
        }
    }

    /// The configuration of a file with these bytes. `BadConfig` exactly where they aren't UTF-8, or no JSON object that nests at most
    /// 127 deep; `OutOfMemory` where there is no memory for it.
    pub fn read(alloc: Global, file: &[u8]) -> Result<Config, ConfigFault>
        ensures ok { IfOk result (λ config. IsUtf8 file.now × (configured file.now ≡ Some (members config))) }
        ensures bad { result ≡ Err ConfigFault.BadConfig → IsUtf8 file.now → configured file.now ≡ None }
        ensures known { result ≢ Err ConfigFault.NoKey }
    {
        match Json::from_slice(alloc, file) {
            Ok(value) => object_in(value),
            Err(error) => Err(match error.classify() {
                Category::Memory => ConfigFault::OutOfMemory,
                _ => ConfigFault::BadConfig,
            }),
        }
    }

    /// This configuration with a later one over it: where both have an object under a key, the two are merged in the same way, at every
    /// depth; otherwise the later value of a key wins, and a key that only one of them has stays. `OutOfMemory` where there is
    /// no memory for it.
    pub fn over(self, alloc: Global, later: &Config) -> Result<Config, OutOfMemory>
        ensures { IfOk result (λ whole. members whole ≡ over (members later.now) (members self)) }
    {
        Ok(Config {
            members: merged(alloc, &later.members, self.members)?,
        })
    }

    /// Puts a text under the key, in the place of what was there. `OutOfMemory` where there is no memory for it: nothing has changed
    /// then.
    pub fn set(&mut self, alloc: Global, key: &str, value: &str) -> Result<(), OutOfMemory>
        ensures ok { OnOk result (members self.new ≡ put key.now (string value.now) (members self.old)) }
        ensures err { OnErr result (members self.new ≡ members self.old) }
    {
        let key = String::from_str(alloc, key)?;
        let value = Json::String(String::from_str(alloc, value)?);
        drop(self.members.insert(key, value)?);
        Ok(())
    }

    /// What stands under these keys, one inside the other. `NoKey` exactly where a key is missing; `BadConfig` exactly where the value
    /// is neither a text, a whole number of 64 bits, a truth value, nor a list of these; `OutOfMemory` where there is no memory for it.
    pub fn get(&self, alloc: Global, keys: &List<Text>) -> Result<Value, ConfigFault>
        ensures ok { IfOk result (λ value. option_and_then given (under keys.now (object (members self.now))) ≡ Some value) }
        ensures no_key { result ≡ Err ConfigFault.NoKey → under keys.now (object (members self.now)) ≡ None }
        ensures bad { result ≡ Err ConfigFault.BadConfig
            → (value : Data) × (under keys.now (object (members self.now)) ≡ Some value) × (given value ≡ None) }
    {
        match keys.as_slice() {
            [] => Err(ConfigFault::BadConfig),
            [first, rest @ ..] => match found(&self.members, first, rest) {
                Some(value) => value_of(alloc, value),
                None => Err(ConfigFault::NoKey),
            },
        }
    }
}

// The configuration that this value is.
fn object_in(value: Json) -> Result<Config, ConfigFault>
    ensures ok { IfOk result (λ config. as_object (view value) ≡ Some (members config)) }
    ensures bad { result ≡ Err ConfigFault.BadConfig → as_object (view value) ≡ None }
    ensures known { result ≢ Err ConfigFault.NoKey }
{
    match value {
        Json::Object(members) => Ok(Config { members }),
        _ => Err(ConfigFault::BadConfig),
    }
}

// What stands under these keys, one inside the other.
fn found<'a>(members: &'a Map<String, Json>, first: &Text, rest: &[Text]) -> Option<&'a Json>
    ensures { option_map (λ value. view value.now) result
        ≡ option_and_then (under rest.now) (get_member first.now (members_view members.now.entries)) }
{
    match members.get(first.as_str()) {
        Some(value) => within(value, rest),
        None => None,
    }
}

// The same in a value.
fn within<'a>(value: &'a Json, keys: &[Text]) -> Option<&'a Json>
    ensures { option_map (λ inner. view inner.now) result ≡ under keys.now (view value.now) }
{
    let mut inner = value;
    for key in keys {
        match inner.get(key.as_str()) {
            Some(next) => inner = next,
            None => return None,
        }
    }
    Some(inner)
}
