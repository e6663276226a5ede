use smk_base::{Amount, List, Pair, PathText, Text};
use smk_world::Values;

/// A rule as it was read. Its texts are patterns, but those of `params` and `words`, in which only names in braces are filled.
#[derive(Drop)]
pub struct RulePart {
    pub name: Text,
    pub checkpoint: bool,
    pub inputs: List<InPart>,
    pub outputs: List<OutPart>,
    pub params: List<Values>,
    pub logs: List<Text>,
    pub threads: u64,
    /// Resources that are counted.
    pub amounts: List<Amount>,
    /// Resources that are texts.
    pub words: List<Pair>,
    pub priority: u64,
    /// Constraints of wildcards by name: the rule's own, and those of the whole file for all other names.
    pub limits: List<Pair>,
    pub default_target: bool,
    pub command: Option<Text>,
    pub file: PathText,
    pub line: u64,
}

/// An item of inputs: texts, or what is gathered from a checkpoint. The name is empty where it has none.
#[derive(Drop)]
pub struct InPart {
    pub name: Text,
    pub texts: List<Text>,
    pub gather: Option<GatherPart>,
}

/// Inputs that follow from the files of a checkpoint's directory: `wanted`, filled by each file that fits `listed`.
#[derive(Drop)]
pub struct GatherPart {
    pub checkpoint: Text,
    pub listed: Text,
    pub wanted: Text,
}

/// An item of outputs. The name is empty where it has none.
#[derive(Drop)]
pub struct OutPart {
    pub name: Text,
    pub outs: List<FlaggedText>,
}

#[derive(Drop)]
pub struct FlaggedText {
    pub text: Text,
    pub flags: List<Flag>,
}

#[derive(Clone, Copy, PartialEq, Eq)]
pub enum Flag {
    Temp,
    Protected,
    Folder,
}

/// Rules by name, the preferred ones first.
#[derive(Drop)]
pub struct Clause {
    pub names: List<Text>,
    pub file: PathText,
    pub line: u64,
}
