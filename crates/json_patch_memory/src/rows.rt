//! Calls by the line. A line is an array of the call's name and its arguments, where a value that is
//! no string stands for its text. A line that begins with `#` comes out as it is.

use crate::runs::value_of;
use crate::seen;
use serde_json::Value;
use std::alloc::{AllocError, Global};
use std::io;

/// All lines are read first, since a call reads standard input, too (`counted`).
pub(crate) fn answer_all(rt: &HostRuntime) -> io::Result<()> {
    let mut lines = Vec::new(rt.alloc());
    for line in rt.lines(rt.alloc()) {
        lines.push(line?)?;
    }
    for line in lines.iter() {
        if line.starts_with('#') {
            println!(rt; "{line}")?;
        } else {
            let row = value_of(rt, line.as_str())?;
            let words = words_of(rt.alloc(), &row)?;
            let answer = seen(rt, words.as_slice())?;
            println!(rt; "{answer}")?;
        }
    }
    Ok(())
}

fn words_of(alloc: Global, row: &Value) -> Result<Vec<String>, AllocError> {
    let mut words = Vec::new(alloc);
    if let Some(items) = row.as_array() {
        for item in items.iter() {
            words.push(word_of(alloc, item)?)?;
        }
    }
    Ok(words)
}

fn word_of(alloc: Global, item: &Value) -> Result<String, AllocError> {
    match item.as_str() {
        Some(text) => String::from_str(alloc, text),
        None => item.to_string(alloc),
    }
}
