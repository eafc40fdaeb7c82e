//! What a line asks for.

use crate::counted::Counted;
use std::alloc::{AllocError, Global};
use std::fmt::Display;

/// The line that answers a line.
pub(crate) fn answer(alloc: Global, line: &str) -> Result<String, AllocError> {
    if line.starts_with('#') {
        return String::from_str(alloc, line);
    }
    let mut list = Counted::new(alloc);
    let mut told = String::new(alloc);
    for change in line.split(';') {
        make(alloc, &mut list, change, &mut told)?;
    }
    let (count, mixed) = (list.count(), list.mixed());
    format!(in alloc; "{told}{count} {mixed}")
}

/// The number that a word says, or 0.
fn number(word: Option<&str>) -> usize {
    word.and_then(|word| word.parse().ok()).unwrap_or(0)
}

/// Makes a change, of a name and two numbers, and tells what it answers.
fn make(
    alloc: Global,
    list: &mut Counted,
    change: &str,
    told: &mut String,
) -> Result<(), AllocError> {
    let mut words = change.split_whitespace();
    let name = words.next().unwrap_or("");
    let (first, second) = (number(words.next()), number(words.next()));
    match name {
        "push" => list.push(first),
        "insert" => {
            list.insert(first, second)?;
            Ok(())
        }
        "remove" => tell(alloc, told, list.remove(first)),
        "exchange" => tell(alloc, told, list.exchange(first, second)),
        "at" => tell(alloc, told, list.at(first)),
        "below" => tell(alloc, told, Some(list.below(first))),
        "back" => {
            list.there_and_back(first);
            Ok(())
        }
        "fill" => fill(list, first),
        "front" => front(list, first, second),
        "empty" => {
            empty(list, first, second);
            Ok(())
        }
        _ => Ok(()),
    }
}

fn tell(alloc: Global, told: &mut String, answer: Option<usize>) -> Result<(), AllocError> {
    let word = match answer {
        Some(answer) => format!(in alloc; "{answer} ")?,
        None => String::from_str(alloc, "none ")?,
    };
    told.push_str(word.as_str())
}

/// Pushes each number below this one.
fn fill(list: &mut Counted, end: usize) -> Result<(), AllocError> {
    for i in 0..end {
        list.push(i)?;
    }
    Ok(())
}

/// Puts each number below `end` in at the same place.
fn front(list: &mut Counted, place: usize, end: usize) -> Result<(), AllocError> {
    for i in 0..end {
        list.insert(place, i)?;
    }
    Ok(())
}

/// Takes so many out at the same place.
fn empty(list: &mut Counted, place: usize, many: usize) {
    for _ in 0..many {
        list.remove(place);
    }
}
