//! What is at fault, in the numbers of `json_patch.h`.

/// A text is no UTF-8, or no JSON.
pub const NOT_JSON: u8 = 1;
/// Another value stands where a `test` looks.
pub const TEST_FAILED: u8 = 3;
/// `from` leads nowhere.
pub const INVALID_FROM_POINTER: u8 = 4;
/// `path` leads nowhere.
pub const INVALID_POINTER: u8 = 5;
/// A value would be moved inside itself.
pub const CANNOT_MOVE_INSIDE_ITSELF: u8 = 6;
/// A text nests too deep, or a value would reach too deep.
pub const TOO_DEEP: u8 = 7;
/// Too much would be copied, or a text would be too long.
pub const TOO_MUCH: u8 = 8;
/// A text would be JSON, but for a surrogate that has no other half.
pub const UNPAIRED_SURROGATE: u8 = 9;
/// A patch has more operations than it may have.
pub const TOO_MANY: u8 = 10;
/// A patch is no array.
pub const NOT_A_LIST: u8 = 11;
/// An operation is no object.
pub const NOT_AN_OBJECT: u8 = 12;
/// It has no `op`.
pub const MISSING_OP: u8 = 13;
/// Its `op` is no string.
pub const OP_NOT_TEXT: u8 = 14;
/// Its `op` is none of the six.
pub const UNKNOWN_OP: u8 = 15;
/// It has no `from`.
pub const MISSING_FROM: u8 = 16;
/// Its `from` is no string.
pub const FROM_NOT_TEXT: u8 = 17;
/// Its `from` is no pointer.
pub const BAD_FROM: u8 = 18;
/// It has no `path`.
pub const MISSING_PATH: u8 = 19;
/// Its `path` is no string.
pub const PATH_NOT_TEXT: u8 = 20;
/// Its `path` is no pointer.
pub const BAD_PATH: u8 = 21;
/// It has no `value`.
pub const MISSING_VALUE: u8 = 22;
/// A number in its `value` is no 64-bit integer.
pub const VALUE_NOT_WHOLE: u8 = 23;
