//! Makes one call on one input and tells what came of it, for a test that refuses its requests for
//! memory one after another: `json_patch_memory CALL TEXT..` writes a line with the result and with
//! what the call leaves. `json_patch_memory rows` does so for each line of standard input.
#![tactic(auto)]

mod apart;
mod counted;
mod editing;
mod kinds;
mod limits;
mod pointers;
mod rows;
mod runs;
mod texts;

use std::io::ErrorKind;
use std::{env, io};

fn main(rt: HostRuntime) -> io::Result<()> {
    let mut words = Vec::new(rt.alloc());
    for word in env::args(&rt)?.skip(1) {
        words.push(word)?;
    }
    match words.as_slice() {
        [word] if word.as_str() == "rows" => rows::answer_all(&rt),
        words => {
            let line = seen(&rt, words)?;
            println!(rt; "{line}")
        }
    }
}

/// The line for a call that the first word names, on the texts after it.
fn seen(rt: &HostRuntime, words: &[String]) -> io::Result<String> {
    match words {
        [call, text] => on_one(rt, call.as_str(), text.as_str()),
        [call, first, second] => on_two(rt, call.as_str(), first.as_str(), second.as_str()),
        [call, first, second, third] => on_three(
            rt,
            call.as_str(),
            first.as_str(),
            second.as_str(),
            third.as_str(),
        ),
        [call, document, changes, depth, copied] => limits::within(
            rt,
            call.as_str(),
            document.as_str(),
            changes.as_str(),
            limits::of(depth.as_str(), copied.as_str())?,
        ),
        _ => Err(io::Error::from(ErrorKind::InvalidInput)),
    }
}

fn on_one(rt: &HostRuntime, call: &str, text: &str) -> io::Result<String> {
    match call {
        "to_buf" => pointers::to_buf(rt, text),
        "decoded" => pointers::decoded(rt, text),
        "parse" => pointers::parse(rt, text),
        "clone" => pointers::clone(rt, text),
        "pretty" => runs::pretty(rt, text),
        "document_from_str" => texts::document(rt, text),
        "document_from_slice" => texts::document_of_bytes(rt, text),
        "patch_from_str" => texts::patch(rt, text),
        _ => Err(io::Error::from(ErrorKind::InvalidInput)),
    }
}

fn on_two(rt: &HostRuntime, call: &str, first: &str, second: &str) -> io::Result<String> {
    match call {
        "are_apart" => apart::are_apart(rt, first, second),
        "is_shallow" => limits::is_shallow(rt, first, second),
        "is_small" => limits::is_small(rt, first, second),
        "push_back" => pointers::push_back(rt, first, second),
        "with_last" => pointers::with_last(rt, first, second),
        "patch" => runs::patch(rt, first, second),
        "patch_unsafe" => runs::patch_unsafe(rt, first, second),
        "apply_patches" => runs::apply_patches(rt, first, second),
        "merge" => runs::merge(rt, first, second),
        "diff" => runs::diff(rt, first, second),
        "guarded_diff" => runs::guarded_diff(rt, first, second),
        "moving_diff" => runs::moving_diff(rt, first, second),
        "merge_diff" => runs::merge_diff(rt, first, second),
        "merge_both" => runs::merge_both(rt, first, second),
        "remove_from_text" => texts::remove(rt, first, second),
        "respond" => texts::respond(rt, first, second),
        "from_value" => kinds::from_value(rt, first, second),
        "to_value" => kinds::to_value(rt, first, second),
        "clone" => kinds::clone(rt, first, second),
        _ => Err(io::Error::from(ErrorKind::InvalidInput)),
    }
}

fn on_three(
    rt: &HostRuntime,
    call: &str,
    first: &str,
    second: &str,
    third: &str,
) -> io::Result<String> {
    match call {
        "edit" => editing::edit(rt, first, second, third),
        "add_to_text" => texts::add(rt, first, second, third),
        "replace_in_text" => texts::replace(rt, first, second, third),
        _ => Err(io::Error::from(ErrorKind::InvalidInput)),
    }
}
