//! Names with their values.

use smk_base::{List, Text};

/// The values of a name, in order.
#[derive(Drop)]
pub struct Choices {
    pub name: Text,
    pub values: List<Text>,
}
