//! How deep an input may nest, and a line.

use super::fakes::{Trouble, writer_with};
use super::refuse;
use crate::edge::run;
use json_patch_answers::Mode;
use std::test::Fail;

/// An object of one member that holds such an object, this deep, and at last 1.
fn nested_object(rt: &HostRuntime, depth: usize) -> Result<Vec<u8>, Fail> {
    let mut text = Vec::new(rt.alloc());
    for _ in 0..depth {
        text.extend_from_slice(b"{\"a\":")?;
    }
    text.push(b'1')?;
    for _ in 0..depth {
        text.push(b'}')?;
    }
    Ok(text)
}

/// An object, and a patch that copies the document into its member so many times.
fn copies(rt: &HostRuntime, number: usize) -> Result<Vec<u8>, Fail> {
    let copy = b"{\"op\":\"copy\",\"from\":\"\",\"path\":\"/a\"}";
    let mut text = Vec::new(rt.alloc());
    text.extend_from_slice(b"[{\"a\":1},[")?;
    text.extend_from_slice(copy)?;
    for _ in 1..number {
        text.push(b',')?;
        text.extend_from_slice(copy)?;
    }
    text.extend_from_slice(b"]]")?;
    Ok(text)
}

#[test]
fn answers_deeper_than_it_reads(rt: HostRuntime) -> Result<(), Fail> {
    let input = copies(&rt, 200)?;
    let deep = nested_object(&rt, 201)?;
    let mut writer = writer_with(rt.alloc(), Trouble::None);
    assert!(rt; run(rt.alloc(), Mode::Patch, &mut input.as_slice(), &mut writer).is_ok());
    assert!(rt; writer.taken.as_slice().strip_suffix(b"\n") == Some(deep.as_slice()));
    Ok(())
}

#[test]
fn reads_no_such_answer_again(rt: HostRuntime) -> Result<(), Fail> {
    let mut again = Vec::new(rt.alloc());
    again.push(b'[')?;
    again.extend_from_slice(&nested_object(&rt, 201)?)?;
    again.extend_from_slice(b",[]]")?;
    refuse(&rt, Mode::Patch, &again, 2, "input is not JSON")
}

/// The text of an empty array in an array, and so on, this deep.
fn brackets(rt: &HostRuntime, depth: usize) -> Result<Vec<u8>, Fail> {
    let mut text = Vec::new(rt.alloc());
    for bracket in [b'[', b']'] {
        for _ in 0..depth {
            text.push(bracket)?;
        }
    }
    Ok(text)
}

/// An array of an array nested this deep and an empty patch.
fn nested(rt: &HostRuntime, depth: usize) -> Result<Vec<u8>, Fail> {
    let mut text = Vec::new(rt.alloc());
    text.push(b'[')?;
    text.extend_from_slice(&brackets(rt, depth)?)?;
    text.extend_from_slice(b",[]]")?;
    Ok(text)
}

#[test]
fn reads_127_levels(rt: HostRuntime) -> Result<(), Fail> {
    let mut writer = writer_with(rt.alloc(), Trouble::None);
    let text = nested(&rt, 126)?;
    let mut line = brackets(&rt, 126)?;
    line.push(b'\n')?;
    assert!(rt; run(rt.alloc(), Mode::Patch, &mut text.as_slice(), &mut writer).is_ok());
    assert!(rt; writer.taken.as_slice() == line.as_slice());
    Ok(())
}

#[test]
fn reads_no_128_levels(rt: HostRuntime) -> Result<(), Fail> {
    let text = nested(&rt, 127)?;
    refuse(&rt, Mode::Patch, &text, 2, "input is not JSON")
}
