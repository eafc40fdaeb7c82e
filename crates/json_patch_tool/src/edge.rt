//! From a reader to a writer: the bytes are read to their end, and the line for them is written.

ghost use Rattle.std.specs.Prelude.{◌≡◌, ◌≢◌, ◌≤◌, ◌<◌, ◌⊎◌, ◌↔◌, ℕ, List, length, take, Ok, Err, IfOk, IfErr, IfSome};
ghost use Rattle.std.specs.Prelude.{OnOk, OnErr, IsErrOf, vec_len, true, false};
ghost use Rattle.std.specs.Io.KnownBytes.{Keeps, Appends, Consumes};
ghost use Rattle.json_patch_answers.specs.Answer.{Answer};
ghost use Rattle.json_patch_tool.specs.Watched.{IsUnread, IsUnwritten};
ghost use Rattle.json_patch_tool.specs.Written.{WritesAnswer, BeginsAnswer};
ghost use Rattle.json_patch_answers.specs.declared.fault.ToolFault.TheVariants.{Memory, TooLarge, ReadFailed, WriteFailed};

use crate::watch::{WatchedReader, WatchedWriter};
use json_patch_answers::{MAX_INPUT, Mode, ToolFault, respond};
use std::alloc::Global;
use std::io::{ErrorKind, Read, Write};

/// The most calls of `read`, which ends a run on a reader that is always interrupted.
pub const MAX_READS: u64 = 20_000_000;

/// The most bytes that one call of `read` is asked for.
const PIECE: usize = 65_536;

/// Reads to the end, and writes the line for the input and nothing else. A read that is interrupted
/// is made again; a write that is interrupted has failed. Nothing is written before the whole
/// line is ready, so after any fault but `WriteFailed` nothing was.
pub fn run<R: Read, W: Write>(
    alloc: Global,
    mode: Mode,
    reader: &mut R,
    writer: &mut W,
) -> Result<(), ToolFault>
    ensures answered { OnOk result (IfSome (R.remaining reader.old) (λ input.
        WritesAnswer mode input (W.contents writer.old) (W.contents writer.new))) }
    ensures refused { IfErr result (λ fault.
        fault ≢ Memory → fault ≢ ReadFailed → fault ≢ WriteFailed
        → IfSome (R.remaining reader.old) (λ input. Answer mode input (Err fault))) }
    ensures cut { IsErrOf result WriteFailed → IfSome (R.remaining reader.old) (λ input.
        BeginsAnswer mode input (W.contents writer.old) (W.contents writer.new)) }
    ensures silent { IfErr result (λ fault. fault ≢ WriteFailed
        → Keeps (W.contents writer.old) (W.contents writer.new)) }
{
    let mut from = WatchedReader::new(reader);
    let mut to = WatchedWriter::new(writer);
    run_watched(alloc, mode, &mut from, &mut to)
}

/// `run`, over a reader and a writer that tell afterwards how it went: reading ends after at most
/// [`MAX_READS`] calls, and `ReadFailed` and `WriteFailed` come only where a call is at fault.
pub fn run_watched<R: Read, W: Write>(
    alloc: Global,
    mode: Mode,
    reader: &mut WatchedReader<R>,
    writer: &mut WatchedWriter<'_, W>,
) -> Result<(), ToolFault>
    requires unread { IsUnread reader.old }
    requires unwritten { IsUnwritten writer.old }
    ensures answered { OnOk result (IfSome (R.remaining reader.old.inner) (λ input.
        WritesAnswer mode input (W.contents writer.old.inner.now)
        (W.contents writer.new.inner.now))) }
    ensures refused { IfErr result (λ fault.
        fault ≢ Memory → fault ≢ ReadFailed → fault ≢ WriteFailed
        → IfSome (R.remaining reader.old.inner) (λ input. Answer mode input (Err fault))) }
    ensures cut { IsErrOf result WriteFailed → IfSome (R.remaining reader.old.inner) (λ input.
        BeginsAnswer mode input (W.contents writer.old.inner.now)
        (W.contents writer.new.inner.now)) }
    ensures silent { IfErr result (λ fault. fault ≢ WriteFailed
        → Keeps (W.contents writer.old.inner.now) (W.contents writer.new.inner.now)) }

    // When a read is at fault: it failed, or all that are allowed showed no end and no excess.
    ensures calls { reader.new.calls ≤ MAX_READS }
    ensures failed_read { reader.new.has_failed ≡ true → IsErrOf result ReadFailed }
    ensures read_failed { IsErrOf result ReadFailed → (reader.new.has_ended ≡ false)
        × ((reader.new.has_failed ≡ true) ⊎ (reader.new.calls ≡ MAX_READS)) }
    ensures early { IsErrOf result ReadFailed → (got : List ℕ)
        × Consumes (R.remaining reader.old.inner) (R.remaining reader.new.inner) got
        × (length got ≤ MAX_INPUT) }
    ensures ended { OnOk result (reader.new.has_ended ≡ true) }
    ensures fault_ended { IfErr result (λ fault.
        fault ≢ Memory → fault ≢ TooLarge → fault ≢ ReadFailed → reader.new.has_ended ≡ true) }

    // When a write or the flush is.
    ensures failed_write { writer.new.has_failed ≡ true → IsErrOf result WriteFailed }
    ensures write_failed { IsErrOf result WriteFailed → writer.new.has_failed ≡ true }
    ensures flushed { OnOk result (writer.new.is_flushed ≡ true) }
    ensures same_reference { writer.new.inner.ghost_name ≡ writer.old.inner.ghost_name }
{
    let input = read_input(alloc, reader)?;
    let line = respond(alloc, mode, &input)?;
    write_line(writer, line.as_bytes())
}

/// Reads to the end. The fault `TooLarge` comes where more than `MAX_INPUT` bytes were taken.
fn read_input<R: Read>(alloc: Global, reader: &mut WatchedReader<R>) -> Result<Vec<u8>, ToolFault>
    requires { IsUnread reader.old }
    ensures whole { IfOk result (λ input. IfSome (R.remaining reader.old.inner)
        (λ bytes. bytes ≡ input.items)) }
    ensures fits { IfOk result (λ input. vec_len input ≤ MAX_INPUT) }
    ensures ended { OnOk result (reader.new.has_ended ≡ true) }
    ensures taken { IfErr result (λ fault. (got : List ℕ)
        × Consumes (R.remaining reader.old.inner) (R.remaining reader.new.inner) got
        × ((fault ≡ TooLarge) ↔ (MAX_INPUT < length got))) }
    ensures faults { IfErr result (λ fault.
        (fault ≡ Memory) ⊎ ((fault ≡ TooLarge) ⊎ (fault ≡ ReadFailed))) }
    ensures calls { reader.new.calls ≤ MAX_READS }
    ensures failed_read { reader.new.has_failed ≡ true → IsErrOf result ReadFailed }
    ensures read_failed { IsErrOf result ReadFailed → (reader.new.has_ended ≡ false)
        × ((reader.new.has_failed ≡ true) ⊎ (reader.new.calls ≡ MAX_READS)) }
{
    let mut piece = [0u8; PIECE];
    let mut input = Vec::new(alloc);
    for _ in 0..MAX_READS {
        match reader.read(&mut piece) {
            Ok(0) => return Ok(input),
            Ok(n) => {
                if n > MAX_INPUT - input.len() {
                    return Err(ToolFault::TooLarge);
                }
                if input.extend_from_slice(&piece[..n]).is_err() {
                    return Err(ToolFault::Memory);
                }
            }
            Err(e) => {
                if e.kind() != ErrorKind::Interrupted {
                    return Err(ToolFault::ReadFailed);
                }
            }
        }
    }
    Err(ToolFault::ReadFailed)
}

/// Writes the whole line, and flushes. A write that is interrupted has failed.
fn write_line<W: Write>(writer: &mut WatchedWriter<'_, W>, line: &[u8]) -> Result<(), ToolFault>
    requires { writer.old.has_failed ≡ false }
    ensures done { OnOk result (Appends (W.contents writer.old.inner.now)
        (W.contents writer.new.inner.now) line.now) }
    ensures cut { OnErr result ((n : ℕ) × Appends (W.contents writer.old.inner.now)
        (W.contents writer.new.inner.now) (take n line.now)) }
    ensures fault { IfErr result (λ fault.
        (fault ≡ WriteFailed) × (writer.new.has_failed ≡ true)) }
    ensures flushed { OnOk result
        ((writer.new.is_flushed ≡ true) × (writer.new.has_failed ≡ false)) }
    ensures same_reference { writer.new.inner.ghost_name ≡ writer.old.inner.ghost_name }
{
    let mut sent = 0;
    while sent < line.len() {
        match writer.write(&line[sent..]) {
            Ok(0) | Err(_) => return Err(ToolFault::WriteFailed),
            Ok(n) => sent += n,
        }
    }
    match writer.flush() {
        Ok(()) => Ok(()),
        Err(_) => Err(ToolFault::WriteFailed),
    }
}
