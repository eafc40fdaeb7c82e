//! What the program does, over any reader and any writers.

ghost use Rattle.std.specs.Prelude.{◌≡◌, ◌≢◌, ◌↔◌, Some, None, Ok, Err, IfOk, IfErr, OnOk, IsOkAnd, map, string_bytes};
ghost use Rattle.std.specs.Vec.Iter.{into_iter_items};
ghost use Rattle.std.specs.IoError.{error_kind};
ghost use Rattle.json_patch_answers.specs.Modes.{AsksFor};
ghost use Rattle.json_patch_answers.specs.Statuses.{status_of};
ghost use Rattle.json_patch_tool.specs.Written.{EndsWith};
ghost use Rattle.json_patch_answers.specs.declared.fault.ToolFault.TheVariants.{Memory};
ghost use Rattle.json_patch_answers.specs.declared.mode.Mode.{Mode};

use crate::edge::run;
use json_patch_answers::{Mode, ToolFault, mode_of, status, usage};
use std::alloc::Global;
use std::env::Args;
use std::io;
use std::io::{ErrorKind, Read, Write};

/// The status for wrong arguments.
const WRONG_ARGUMENTS: u8 = 64;

/// The mode that the arguments name, or None where they are wrong. An argument that is no string is
/// wrong; where there is another error, memory ran out for the arguments.
pub(crate) fn asked_mode(args: io::Result<Args>) -> Result<Option<Mode>, ToolFault>
    ensures words { IfOk args (λ words. IsOkAnd result (λ asked. (mode : Mode)
        → (asked ≡ Some mode) ↔ AsksFor (map string_bytes (into_iter_items words)) mode)) }
    ensures no_text { IfErr args (λ e. error_kind e ≡ ErrorKind.InvalidData → result ≡ Ok None) }
    ensures no_words { IfErr args
        (λ e. error_kind e ≢ ErrorKind.InvalidData → result ≡ Err Memory) }
{
    match args {
        Ok(words) => Ok(mode_of_words(words)),
        Err(e) if e.kind() == ErrorKind::InvalidData => Ok(None),
        Err(_) => Err(ToolFault::Memory),
    }
}

fn mode_of_words(mut words: Args) -> Option<Mode>
    ensures { (mode : Mode)
        → (result ≡ Some mode) ↔ AsksFor (map string_bytes (into_iter_items words)) mode }
{
    match (words.next(), words.next(), words.next()) {
        (Some(_program), Some(word), None) => mode_of(word.as_str()),
        _ => None,
    }
}

/// Runs the mode that was asked for, and returns the status with which the program ends. A fault's
/// text, or the usage line where the arguments are wrong, goes to `errors`; whether that can be
/// written changes nothing.
pub(crate) fn run_as_asked<R: Read, W: Write, E: Write>(
    alloc: Global,
    asked: Result<Option<Mode>, ToolFault>,
    reader: &mut R,
    writer: &mut W,
    errors: &mut E,
) -> u8
    ensures ended { (mode : Mode) → asked ≡ Ok (Some mode) → EndsWith mode
        (R.remaining reader.old) (W.contents writer.old) (W.contents writer.new) result }
    ensures wrong_arguments { asked ≡ Ok None → result ≡ 64 }
    ensures no_arguments { IfErr asked (λ fault. result ≡ status_of fault) }
    ensures untouched { ((mode : Mode) → asked ≢ Ok (Some mode))
        → (reader.new ≡ reader.old) × (writer.new ≡ writer.old) }
{
    match asked {
        Ok(Some(mode)) => status_told(run(alloc, mode, reader, writer), errors),
        Ok(None) => {
            let _ = writeln!(errors, "{}", usage());
            WRONG_ARGUMENTS
        }
        Err(fault) => status_told(Err(fault), errors),
    }
}

/// The status of what a run ended in, once its fault is told.
fn status_told<E: Write>(ended: Result<(), ToolFault>, errors: &mut E) -> u8
    ensures done { OnOk ended (result ≡ 0) }
    ensures fault { IfErr ended (λ fault. result ≡ status_of fault) }
{
    match ended {
        Ok(()) => 0,
        Err(fault) => {
            let _ = writeln!(errors, "{fault}");
            status(&fault)
        }
    }
}
