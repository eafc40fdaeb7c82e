//! Lists in blocks, one for each line of standard input: its changes, parted by `;`, are made one after
//! another, and a line of standard output tells what each answers, and the list that is left. A line
//! that begins with `#` comes out as it is.
#![tactic(auto)]

mod changes;
mod counted;

use std::io;

fn main(rt: HostRuntime) -> io::Result<()> {
    for line in rt.lines(rt.alloc()) {
        let answer = changes::answer(rt.alloc(), line?.as_str())?;
        println!(rt; "{answer}")?;
    }
    Ok(())
}
