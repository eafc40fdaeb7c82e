//! What a call tells beside its status, and what it writes.

ghost use Rattle.std.specs.Prelude.{◌≡◌, ◌≢◌, ◌≤◌, ◌<◌, ◌⊎◌, ◌↔◌, ℕ, IfErr, IfOk, IsTrue, length, string_bytes};
ghost use Rattle.json_patch.specs.LimitError.{LimitError};
ghost use Rattle.json_patch.specs.PatchError.{PatchError};
ghost use Rattle.json_patch_bytes.specs.Kinds.{limit_kind};
ghost use Rattle.json_patch_bytes.specs.declared.failure.Failure.TheVariants.{NoDocument, NoPatch, Over, Refused, TooMany};
ghost use Rattle.json_patch_bytes.specs.declared.kinds.TheConstants.{TOO_MANY};
ghost use Rattle.json_patch_c.specs.Reports.{IsPut, Tells, TellsBoth, TellsRefusal};
ghost use Rattle.json_patch_c.specs.Told.{IsPutOut, IsReported};
ghost use Rattle.json_patch_c.specs.declared.status.TheConstants.{NO_DOCUMENT, NO_MEMORY, NO_PATCH, NO_ROOM, OK, OVER, REFUSED};

use crate::status::{NO_DOCUMENT, NO_MEMORY, NO_PATCH, NO_ROOM, OK, OVER, REFUSED};
use json_patch::PatchError;
use json_patch_bytes::failure::{Failure, kind_of_limit, kind_of_refusal};
use json_patch_bytes::kinds::TOO_MANY;

/// What a call tells beside its status: what doesn't belong to the status is 0.
#[repr(C)]
#[derive(Clone, Copy)]
pub struct Report {
    /// The bytes of the text, or of the path of the operation that is refused.
    pub size: usize,
    /// The number of the operation that is refused or can't be read, counted from 0.
    pub operation: usize,
    /// The bytes of the patch that leads back, where one is written.
    pub inverse_size: usize,
    /// What is at fault.
    pub kind: u8,
}

/// Writes the text at the start of `out`, if there is room for it.
fn put(text: &[u8], out: &mut [u8]) -> bool
    ensures put { IsTrue result → IsPut text.now out.old out.new }
    ensures room { IsTrue result ↔ (length text.now ≤ length out.old) }
    ensures unchanged { (IsTrue result → ⊥) → out.new ≡ out.old }
{
    if text.len() > out.len() {
        return false;
    }
    out[..text.len()].copy_from_slice(text);
    true
}

/// Writes the text that was made, or tells why none was.
pub(crate) fn answer(made: Result<String, Failure>, out: &mut [u8], report: &mut Report) -> u8
    ensures put_out { IfOk made (λ s. IsPutOut (string_bytes s) result out.old out.new report.new) }
    ensures reported { IfErr made (λ failure. IsReported failure result out.old out.new report.new) }
{
    match made {
        Ok(text) => write(text.as_bytes(), out, report),
        Err(failure) => refuse(&failure, out, report),
    }
}

/// Writes a text that was made: `OK`, or `NO_ROOM` where `out` is shorter than it.
pub(crate) fn write(text: &[u8], out: &mut [u8], report: &mut Report) -> u8
    ensures made { result ≡ OK → IsPut text.now out.old out.new }
    ensures no_room { result ≡ NO_ROOM → length out.old < length text.now }
    ensures told { Tells (length text.now) 0 0 report.new }
    ensures status { (result ≡ OK) ⊎ (result ≡ NO_ROOM) }
    ensures unchanged { result ≢ OK → out.new ≡ out.old }
{
    *report = Report {
        size: text.len(),
        operation: 0,
        inverse_size: 0,
        kind: 0,
    };
    if put(text, out) { OK } else { NO_ROOM }
}

/// Writes two texts that were made: `OK`, or `NO_ROOM` where there is less room for one than it takes.
pub(crate) fn write_both(
    text: &[u8],
    undo: &[u8],
    out: &mut [u8],
    inverse: &mut [u8],
    report: &mut Report,
) -> u8
    ensures made { result ≡ OK → IsPut text.now out.old out.new × IsPut undo.now inverse.old inverse.new }
    ensures no_room { result ≡ NO_ROOM
        → (length out.old < length text.now) ⊎ (length inverse.old < length undo.now) }
    ensures told { TellsBoth (length text.now) (length undo.now) report.new }
    ensures status { (result ≡ OK) ⊎ (result ≡ NO_ROOM) }
    ensures unchanged { result ≢ OK → (out.new ≡ out.old) × (inverse.new ≡ inverse.old) }
{
    *report = Report {
        size: text.len(),
        operation: 0,
        inverse_size: undo.len(),
        kind: 0,
    };
    if text.len() > out.len() || undo.len() > inverse.len() {
        return NO_ROOM;
    }
    put(text, out);
    put(undo, inverse);
    OK
}

/// Tells a status with no text.
pub(crate) fn tell(status: u8, operation: usize, kind: u8, report: &mut Report) -> u8
    ensures status { result ≡ status }
    ensures told { Tells 0 operation kind report.new }
{
    *report = Report {
        size: 0,
        operation,
        inverse_size: 0,
        kind,
    };
    status
}

/// Tells why nothing was made.
pub(crate) fn refuse(failure: &Failure, out: &mut [u8], report: &mut Report) -> u8
    ensures refused { result ≡ REFUSED → (e : PatchError) × (failure.now ≡ Refused e)
        × TellsRefusal e out.old out.new report.new }
    ensures no_document { result ≡ NO_DOCUMENT → (failure.now ≡ NoDocument report.new.kind)
        × Tells 0 0 report.new.kind report.new }
    ensures no_patch { result ≡ NO_PATCH
        → (failure.now ≡ NoPatch report.new.operation report.new.kind) × (report.new.size ≡ 0) }
    ensures no_memory { result ≡ NO_MEMORY → Tells 0 0 0 report.new }
    ensures over { result ≡ OVER → ((e : LimitError) × (failure.now ≡ Over e)
        × Tells 0 e.operation (limit_kind e.kind) report.new)
        ⊎ ((k : ℕ) × (failure.now ≡ TooMany k) × Tells 0 k TOO_MANY report.new) }
    ensures status { (result ≢ OK) × ((result ≤ NO_MEMORY) ⊎ (result ≡ OVER)) }
    ensures unchanged { result ≢ REFUSED → out.new ≡ out.old }
{
    let (status, operation, kind) = match failure {
        Failure::Refused(error) => {
            tell_refusal(error, out, report);
            return REFUSED;
        }
        Failure::NoDocument(kind) => (NO_DOCUMENT, 0, *kind),
        Failure::NoPatch(operation, kind) => (NO_PATCH, *operation, *kind),
        Failure::Over(error) => (OVER, error.operation, kind_of_limit(error.kind)),
        Failure::TooMany(most) => (OVER, *most, TOO_MANY),
        Failure::Memory => (NO_MEMORY, 0, 0),
    };
    *report = Report {
        size: 0,
        operation,
        inverse_size: 0,
        kind,
    };
    status
}

fn tell_refusal(error: &PatchError, out: &mut [u8], report: &mut Report)
    ensures { TellsRefusal error.now out.old out.new report.new }
{
    let path = error.path.as_str().as_bytes();
    put(path, out);
    *report = Report {
        size: path.len(),
        operation: error.operation,
        inverse_size: 0,
        kind: kind_of_refusal(&error.kind),
    };
}
