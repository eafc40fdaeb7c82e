//! Inputs that are refused.

use super::inputs::HAPPY;
use super::refuse;
use json_patch_answers::Mode;
use std::test::Fail;

#[test]
fn refuses_what_is_no_pair(rt: HostRuntime) -> Result<(), Fail> {
    let inputs: [&[u8]; 6] = [
        b"[{\"a\":1},[",
        b"[1,[]] x",
        b"[\"\xff\",[]]",
        b"[1e400,[]]",
        b"[\"\\ud800\",[]]",
        b"]",
    ];
    for input in inputs {
        refuse(&rt, Mode::Patch, input, 2, "input is not JSON")?;
    }
    for end in 0..HAPPY.len() {
        refuse(&rt, Mode::Patch, &HAPPY[..end], 2, "input is not JSON")?;
    }
    let inputs: [&[u8]; 3] = [b"[1]", b"[1,[],2]", b"{}"];
    for input in inputs {
        for mode in [Mode::Patch, Mode::Record, Mode::Merge, Mode::Edit] {
            refuse(&rt, mode, input, 2, "input is not a list of two values")?;
        }
    }
    Ok(())
}

#[test]
fn refuses_numbers_that_are_not_whole(rt: HostRuntime) -> Result<(), Fail> {
    let inputs: [&[u8]; 7] = [
        b"[1.5,[]]",
        b"[1.5,{}]",
        b"[{\"a\":[1.5]},[]]",
        b"[18446744073709551616,[]]",
        b"[-9223372036854775809,[]]",
        b"[-0,[]]",
        b"[1e2,[]]",
    ];
    for input in inputs {
        for mode in [Mode::Patch, Mode::Record, Mode::Edit] {
            refuse(&rt, mode, input, 2, "a number is not whole")?;
        }
    }
    let inputs: [&[u8]; 3] = [b"[{\"a\":1},{\"b\":1.5}]", b"[1.5,{}]", b"[-0,1e2]"];
    for input in inputs {
        refuse(&rt, Mode::Merge, input, 2, "a number is not whole")?;
    }
    Ok(())
}

#[test]
fn refuses_patches(rt: HostRuntime) -> Result<(), Fail> {
    let cases: [(&[u8], u8, &str); 3] = [
        (b"[1,{}]", 2, "patch is not a list"),
        (
            b"[1,[{\"op\":\"add\",\"path\":\"/a~\",\"value\":1}]]",
            2,
            "operation '/0': member \"path\" is not a pointer: invalid escape at byte 2",
        ),
        (
            b"[[1],[{\"op\":\"remove\",\"path\":\"/-\"}]]",
            1,
            "operation '/0' failed at path '/-': path is invalid",
        ),
    ];
    for (input, number, text) in cases {
        for mode in [Mode::Patch, Mode::Record] {
            refuse(&rt, mode, input, number, text)?;
        }
    }
    Ok(())
}

/// All elements are read before the first command is done.
#[test]
fn refuses_lists_of_commands(rt: HostRuntime) -> Result<(), Fail> {
    let cases: [(&[u8], &str); 4] = [
        (b"[7,{}]", "patch is not a list"),
        (b"[7,\"undo\"]", "patch is not a list"),
        (b"[7,[[],\"Undo\"]]", "patch is not a list"),
        (
            b"[7,[[{\"op\":\"replace\",\"path\":\"\",\"value\":8}],\
                [{\"op\":\"add\",\"path\":\"/a\"}]]]",
            "operation '/0': member \"value\" is missing",
        ),
    ];
    for (input, text) in cases {
        refuse(&rt, Mode::Edit, input, 2, text)?;
    }
    Ok(())
}
