//! What is wrong with a workflow.

use smk_base::Text;
use smk_eval_values::ValueFault;
use smk_flow::FlowFault;

/// What is wrong with a file, and in which line.
#[derive(Drop)]
pub enum FileFlaw {
    /// The indentation of the line fits none above.
    BadIndent { file: Text, line: u64 },
    /// The text that begins in the line isn't closed.
    OpenText { file: Text, line: u64 },
    /// The line has a byte that may not stand there.
    BadByte { file: Text, line: u64 },
    /// The grammar doesn't go on with what stands in the line.
    Unexpected { file: Text, line: u64 },
    /// The word is of Python, and not of this language; or it is of a form that no run can do.
    Unsupported { file: Text, line: u64, word: Text },
    /// The word was given before.
    Doubled { file: Text, line: u64, word: Text },
    /// Includes lie more than 16 deep within each other; the file is the first too deep.
    IncludeDepth { file: Text },
    /// No file is there, or the text is no path.
    NoFile { file: Text },
    /// The file has more than 1,048,576 bytes.
    TooBig { file: Text },
}

/// What is wrong with what files say.
#[derive(Drop)]
pub enum SaidFlaw {
    /// An expression of the statement has no value. The line is the statement's first, and the rule is the empty text where it is none.
    Value {
        file: Text,
        line: u64,
        rule: Text,
        fault: ValueFault,
    },
    /// The rules and the clauses make no workflow.
    Rules(FlowFault),
}

/// What is wrong with a workflow.
#[derive(Drop)]
pub enum Flaw {
    /// One of its files isn't read.
    File(FileFlaw),
    /// What they say is wrong.
    Said(SaidFlaw),
    /// The file is no configuration.
    BadConfig { file: Text },
}
