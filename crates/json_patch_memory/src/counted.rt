//! Which requests for memory are counted: those between two marks, a read of standard input and a
//! write to standard error.

use std::fmt::Display;
use std::io;
use std::io::{Read, Write};

/// The value of a call, whose requests alone are counted.
macro_rules! counted {
    ($rt:expr; $call:expr) => {{
        crate::counted::begin($rt)?;
        let answer = $call;
        crate::counted::end($rt)?;
        answer
    }};
}

pub(crate) use counted;

pub(crate) fn begin(rt: &HostRuntime) -> io::Result<()> {
    let _end = rt.stdin().read(&mut [0u8])?;
    Ok(())
}

pub(crate) fn end(rt: &HostRuntime) -> io::Result<()> {
    rt.stderr().write_all(b"\n")
}

/// The line of a result, or of why there is none, and of what is left.
pub(crate) fn line<T: Display, E: Display, L: Display>(
    rt: &HostRuntime,
    answer: &Result<T, E>,
    left: &L,
) -> io::Result<String> {
    Ok(match answer {
        Ok(answer) => format!(in rt.alloc(); "{answer} leaves {left}")?,
        Err(fault) => format!(in rt.alloc(); "{fault} leaves {left}")?,
    })
}
