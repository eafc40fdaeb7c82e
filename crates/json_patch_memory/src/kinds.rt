//! Calls on a patch, an operation, and each kind's struct.

use crate::counted::{counted, line};
use crate::runs::value_of;
use json_patch::{
    AddOperation, CopyOperation, MoveOperation, Patch, PatchFault, PatchOperation, ReadFault,
    RemoveOperation, ReplaceOperation, TestOperation,
};
use serde_json::Value;
use std::alloc::{AllocError, Global};
use std::fmt::Display;
use std::io;
use std::io::ErrorKind;

macro_rules! by_kind {
    ($kind:expr, $call:ident($rt:expr, $value:expr, $($method:ident),+)) => {
        match $kind {
            "patch" => $call($rt, $value, $(Patch::$method),+),
            "operation" => $call($rt, $value, $(PatchOperation::$method),+),
            "add" => $call($rt, $value, $(AddOperation::$method),+),
            "remove" => $call($rt, $value, $(RemoveOperation::$method),+),
            "replace" => $call($rt, $value, $(ReplaceOperation::$method),+),
            "move" => $call($rt, $value, $(MoveOperation::$method),+),
            "copy" => $call($rt, $value, $(CopyOperation::$method),+),
            "test" => $call($rt, $value, $(TestOperation::$method),+),
            _ => Err(io::Error::from(ErrorKind::InvalidInput)),
        }
    };
}

pub(crate) fn from_value(rt: &HostRuntime, kind: &str, text: &str) -> io::Result<String> {
    let value = value_of(rt, text)?;
    by_kind!(kind, read(rt, &value, from_value))
}

pub(crate) fn to_value(rt: &HostRuntime, kind: &str, text: &str) -> io::Result<String> {
    let value = value_of(rt, text)?;
    by_kind!(kind, made(rt, &value, from_value, to_value))
}

pub(crate) fn clone(rt: &HostRuntime, kind: &str, text: &str) -> io::Result<String> {
    let value = value_of(rt, text)?;
    by_kind!(kind, made(rt, &value, from_value, clone))
}

/// Counts what reading takes.
fn read<T: Display + Drop, R: FnOnce(Global, &Value) -> Result<T, ReadFault>>(
    rt: &HostRuntime,
    value: &Value,
    from_value: R,
) -> io::Result<String>
    requires { R.IsAlwaysCallable from_value }
{
    let answer = counted!(rt; from_value(rt.alloc(), value));
    line(rt, &answer, value)
}

/// Counts what is taken to make something of what was read.
fn made<T, M, R, F>(rt: &HostRuntime, value: &Value, from_value: R, make: F) -> io::Result<String>
where
    T: Display + Drop,
    M: Display + Drop,
    R: FnOnce(Global, &Value) -> Result<T, ReadFault>,
    F: FnOnce(&T, Global) -> Result<M, AllocError>,
    requires read { R.IsAlwaysCallable from_value }
    requires made { F.IsAlwaysCallable make }
{
    let Ok(read) = from_value(rt.alloc(), value) else {
        return Err(io::Error::from(ErrorKind::InvalidInput));
    };
    let answer = counted!(rt; make(&read, rt.alloc()));
    line(rt, &answer.map_err(PatchFault::Memory), &read)
}
