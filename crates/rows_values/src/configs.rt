//! Configurations.

use rows_lines::{Trouble, push_row, push_title};
use smk_base::{List, OutOfMemory, Text};
use smk_config::{Config, ConfigFault, Value};
use std::alloc::{AllocError, Global};

/// The keys with points between them.
fn keys(alloc: Global, words: &str) -> Result<List<Text>, OutOfMemory> {
    let mut keys = List::new(alloc);
    for word in words.split('.') {
        keys.push(Text::of(alloc, word)?)?;
    }
    Ok(keys)
}

/// The texts, each with a comma after it.
fn listed(alloc: Global, words: &[Text]) -> Result<String, OutOfMemory> {
    let mut text = String::new(alloc);
    for word in words {
        text.push_str(word.as_str())?;
        text.push_str(",")?;
    }
    Ok(text)
}

/// The word of the fault.
fn fault_word(fault: ConfigFault) -> &'static str {
    match fault {
        ConfigFault::BadConfig => "bad",
        ConfigFault::NoKey => "no key",
        ConfigFault::OutOfMemory => "out of memory",
    }
}

/// The value under these keys, or the fault.
fn shown(alloc: Global, config: &Config, words: &str) -> Result<String, Trouble> {
    let keys = keys(alloc, words)?;
    match config.get(alloc, &keys) {
        Ok(Value::Word(word)) => Ok(String::from_str(alloc, word.as_str())?),
        Ok(Value::Many(words)) => Ok(listed(alloc, words.as_slice())?),
        Err(fault) => Ok(String::from_str(alloc, fault_word(fault))?),
    }
}

/// A configuration over another, and a text that is set.
fn configured(alloc: Global) -> Result<Config, ConfigFault> {
    let first = Config::read(
        alloc,
        b"{\"n\": \"x\", \"p\": 0.5, \"m\": {\"a\": \"1\", \"l\": [1]}}",
    )?;
    let second = Config::read(
        alloc,
        b"{\"m\": {\"b\": -2, \"l\": [true, 18446744073709551615]}, \"f\": false}",
    )?;
    let mut whole = first.over(alloc, &second)?;
    whole.set(alloc, "n", "y")?;
    Ok(whole)
}

/// What stands under keys.
fn push_values(alloc: Global, text: &mut String, config: &Config) -> Result<(), AllocError> {
    let table = [
        ("n", "y"),
        ("f", "False"),
        ("p", "bad"),
        ("q", "no key"),
        ("m", "bad"),
        ("m.a", "1"),
        ("m.b", "-2"),
        ("m.l", "True,18446744073709551615,"),
        ("m.a.c", "no key"),
    ];
    for (words, wanted) in table {
        push_row(text, words, &shown(alloc, config, words), wanted)?;
    }
    Ok(())
}

/// What is said of a file.
fn said(alloc: Global, file: &[u8]) -> Result<String, Trouble> {
    let word = match Config::read(alloc, file) {
        Ok(_) => "read",
        Err(fault) => fault_word(fault),
    };
    Ok(String::from_str(alloc, word)?)
}

/// Files that are no objects.
fn push_files(alloc: Global, text: &mut String) -> Result<(), AllocError> {
    let table: [(&str, &[u8]); 5] = [
        ("an empty file", b""),
        ("a list", b"[1]"),
        ("a key without a value", b"{\"a\": }"),
        ("two objects", b"{} {}"),
        ("a byte that is no text", b"\"\xff\""),
    ];
    for (name, file) in table {
        push_row(text, name, &said(alloc, file), "bad")?;
    }
    Ok(())
}

/// Adds the rows on configurations.
pub fn push_rows(alloc: Global, text: &mut String) -> Result<(), AllocError> {
    push_title(text, "values of a configuration")?;
    match configured(alloc) {
        Ok(config) => push_values(alloc, text, &config)?,
        Err(fault) => text.push_str(fault_word(fault))?,
    }
    push_title(text, "files that are no configuration")?;
    push_files(alloc, text)
}
