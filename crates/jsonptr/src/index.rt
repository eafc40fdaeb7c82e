//! Tokens that name an index of an array (RFC 6901, section 4).

ghost use Rattle.std.specs.Prelude.{◌≡◌, ◌≢◌, ℕ, ◌<◌, ◌≤◌, length, slice_index, IfOk, IfErr, OnOk, OnErr, IsTrue, ◌↔◌};
ghost use Rattle.std.specs.Int.{IsInRange};
ghost use Rattle.jsonptr.specs.Places.{next_token};
ghost use Rattle.jsonptr.specs.Indexes.{IsIndexText, IsIndexFault, IsNoIndexText, HasLeadingZero, place_in};
ghost use Rattle.jsonptr.specs.Indexes.{IsOutOfBounds};

use thiserror::Error;

/// What a token names in an array.
#[derive(Clone, Copy, Debug, PartialEq, Eq)]
pub enum Index {
    /// The element at this index, counted from 0.
    Num(usize),
    /// The index after the last element, written `-`.
    Next,
}

/// Why a string names nothing in an array, the first that applies.
#[derive(Debug, Drop, Error)]
pub enum ParseIndexError {
    /// The string has two or more bytes and begins with `0`.
    #[error("index has a leading zero")]
    LeadingZeros,
    /// A character isn't one of `0` to `9`.
    #[error("invalid character at byte {offset}")]
    InvalidCharacter {
        /// The byte offset of the first such character.
        offset: usize,
    },
    /// The string is empty, or a number past 18446744073709551615.
    #[error("index is not a number in range")]
    InvalidInteger,
}

/// An index that lies outside an array.
#[derive(Debug, Drop, Error)]
#[error("index {index} is out of bounds for length {length}")]
pub struct OutOfBoundsError {
    /// How many elements the array has.
    pub length: usize,
    /// The index, which for `-` is the length.
    pub index: usize,
}

impl Index {
    /// The index that a string names: a number without a leading zero, or `-`.
    pub fn parse(text: &str) -> Result<Index, ParseIndexError>
        ensures index { IfOk result (IsIndexText text.now) }
        ensures fault { IfErr result (IsIndexFault text.now) }
        ensures no_index { OnErr result (IsNoIndexText text.now) }
    {
        if text == "-" {
            return Ok(Index::Next);
        }
        check_digits(text)?;
        match text.parse::<usize>() {
            Ok(place) => Ok(Index::Num(place)),
            Err(_) => Err(ParseIndexError::InvalidInteger),
        }
    }

    /// The index of an element in an array of `len` elements; `-` names none.
    pub fn for_len(self, len: usize) -> Result<usize, OutOfBoundsError>
        ensures place { IfOk result (λ n. n ≡ place_in self len) }
        ensures within { IfOk result (λ n. n < len) }
        ensures error { IfErr result (IsOutOfBounds self len) }
        ensures outside { OnErr result (len ≤ place_in self len) }
    {
        match self {
            Index::Num(index) if index < len => Ok(index),
            Index::Num(index) => Err(OutOfBoundsError { length: len, index }),
            Index::Next => Err(OutOfBoundsError {
                length: len,
                index: len,
            }),
        }
    }

    /// The index at which an array of `len` elements takes a new one; `-` names the end.
    pub fn for_len_incl(self, len: usize) -> Result<usize, OutOfBoundsError>
        ensures place { IfOk result (λ n. n ≡ place_in self len) }
        ensures within { IfOk result (λ n. n ≤ len) }
        ensures error { IfErr result (IsOutOfBounds self len) }
        ensures outside { OnErr result (len < place_in self len) }
    {
        match self {
            Index::Num(index) if index <= len => Ok(index),
            Index::Num(index) => Err(OutOfBoundsError { length: len, index }),
            Index::Next => Ok(len),
        }
    }
}

/// Whether only digits stand in the string, with no leading zero.
fn check_digits(text: &str) -> Result<(), ParseIndexError>
    requires { text.now ≢ next_token }
    ensures digits { OnOk result
        ((k : ℕ) → k < length text.now → IsInRange 48 57 (slice_index text.now k)) }
    ensures no_leading_zero { OnOk result (¬ HasLeadingZero text.now) }
    ensures fault { IfErr result (IsIndexFault text.now) }
{
    let bytes = text.as_bytes();
    if has_leading_zero(bytes) {
        return Err(ParseIndexError::LeadingZeros);
    }
    for (offset, byte) in bytes.iter().enumerate() {
        if !byte.is_ascii_digit() {
            return Err(ParseIndexError::InvalidCharacter { offset });
        }
    }
    Ok(())
}

/// Whether two or more bytes stand there and the first is `0`.
fn has_leading_zero(bytes: &[u8]) -> bool
    ensures { IsTrue result ↔ HasLeadingZero bytes.now }
{
    bytes.len() >= 2 && bytes[0] == b'0'
}
