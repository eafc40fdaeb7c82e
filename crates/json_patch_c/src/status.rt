//! What came of a call, in the numbers of `json_patch.h`.

/// Done: what the call writes is in `out`.
pub const OK: u8 = 0;
/// An operation is refused; its path is in `out`, if there is room.
pub const REFUSED: u8 = 1;
/// The document's text says none.
pub const NO_DOCUMENT: u8 = 2;
/// The patch's text, or that of the document to which one is to lead, says none.
pub const NO_PATCH: u8 = 3;
/// Memory ran out.
pub const NO_MEMORY: u8 = 4;
/// `out` is too short.
pub const NO_ROOM: u8 = 5;
/// No document is open.
pub const CLOSED: u8 = 6;
/// The text is no pointer's.
pub const NO_POINTER: u8 = 7;
/// The pointer leads nowhere, or there is nothing to take back.
pub const NOTHING: u8 = 8;
/// An operation, or a merge, is over the limits.
pub const OVER: u8 = 9;
/// The struct of limits has a size that isn't known.
pub const BAD_LIMITS: u8 = 10;
/// No merge patch does what is asked.
pub const IMPOSSIBLE: u8 = 11;
/// The flags have a bit that isn't known, or two that don't go together.
pub const BAD_FLAGS: u8 = 12;
