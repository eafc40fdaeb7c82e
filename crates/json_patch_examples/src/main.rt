//! The examples that the README and the comments show, each as a proved function, and the programs of
//! `json_patch_uses`, a row at a time. Each line of standard input is a row, an array of a call's name
//! and its arguments, where a value that is no string stands for its text, and each line of standard
//! output is what the call answers and leaves. A line that begins with `#` comes out as it is.
#![tactic(auto)]

mod callers;
mod readme;
mod uses;

use std::io;

fn main(rt: HostRuntime) -> io::Result<()> {
    for line in rt.lines(rt.alloc()) {
        let answer = readme::rows::answer(rt.alloc(), line?.as_str())?;
        println!(rt; "{answer}")?;
    }
    Ok(())
}
