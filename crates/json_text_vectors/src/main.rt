//! Calls on JSON texts, a row at a time: those of `json_text`, `json_pieces`, `json_patch_text`,
//! `json_merge_text`, `json_diff_text` and `json_kept_text`, and the examples of their comments. Each line of standard
//! input is a row, an array of a call's name and its arguments, and each line of standard output is the
//! text that the call answers with, as a JSON string, or why there is none. A line that begins with `#`
//! comes out as it is.
#![tactic(auto)]

mod differences;
mod examples;
mod keeps;
mod merges;
mod patches;
mod pieces;
mod places;
mod records;
mod rows;

use std::io;

fn main(rt: HostRuntime) -> io::Result<()> {
    for line in rt.lines(rt.alloc()) {
        let answer = rows::answer(rt.alloc(), line?.as_str())?;
        println!(rt; "{answer}")?;
    }
    Ok(())
}
