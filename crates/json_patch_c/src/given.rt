//! Limits that a C caller may leave out: a pointer, null or to a struct of `size_t`s that begins with
//! its own size in bytes.

ghost use Rattle.std.specs.Prelude.{◌≡◌, ◌≤◌, IfOk, Option, option_map, slice_index_or};
ghost use Rattle.json_patch_c.specs.Given.{Given, readable, word_count};
ghost use Rattle.json_patch_c.specs.Limits.{limits_of, most_said, named_limits};

use json_patch::Limits;
use json_patch_bytes::bounds::{default_limits, within_most};
use std::marker::Model;
use std::mem::size_of;
use std::slice::from_raw_parts;

/// The size of the struct of limits, in bytes: there is one.
const KNOWN_BYTES: usize = 32;

/// The limits of a call.
#[derive(Clone, Copy)]
pub struct CallLimits {
    /// Those of each text that it leaves.
    pub texts: Limits,
    /// How many operations a patch may have, where that is limited.
    pub operations: Option<usize>,
}

/// A struct of limits has a size that isn't known.
#[derive(Clone, Copy)]
pub struct WrongSize;

/// What C declares as `const json_patch_limits *`.
///
/// The caller owes that it is null, or aligned as a `size_t` is and at a `size_t` that can be read,
/// the size, with as many bytes that can be read as it says, or `KNOWN_BYTES` where it says more. They
/// may be in memory that can't be written; nobody writes them during the call, and it keeps no pointer
/// to them.
#[repr(C)]
#[derive(Drop)]
pub struct GivenLimits {
    at: *const usize,
    pub ghost given: { Option Given },
}

impl Model for GivenLimits {
    ghost also_owns = { λ g. readable g.at g.given };
}

impl GivenLimits {
    /// The limits of a call: those that are given, or the default ones.
    pub(crate) fn limits(self) -> Result<CallLimits, WrongSize>
        ensures limits { result ≡ limits_of self.given }
        ensures bounded { IfOk result (λ l. l.texts.depth ≤ 124) }
    {
        match self.get() {
            Some(limits) => limits,
            None => Ok(CallLimits {
                texts: default_limits(),
                operations: None,
            }),
        }
    }

    fn get(self) -> Option<Result<CallLimits, WrongSize>>
        ensures { result ≡ option_map (λ g. named_limits g.size g.words) self.given }
    {
        let GivenLimits { at } = self;
        if at.is_null() {
            return None;
        }
        unsafe {
            let size = *at;
            let words = from_raw_parts(at, word_count(size));
            Some(named(size, words))
        }
    }
}

/// How many words are read of a struct of this size.
fn word_count(size: usize) -> usize
    ensures { result ≡ word_count size }
{
    size.min(KNOWN_BYTES) / size_of::<usize>()
}

/// The limits that a struct of this size says by its words.
fn named(size: usize, words: &[usize]) -> Result<CallLimits, WrongSize>
    ensures { result ≡ named_limits size words.now }
{
    if size != KNOWN_BYTES {
        return Err(WrongSize);
    }
    let other = default_limits();
    let texts = within_most(&Limits {
        depth: word_or(words, 1, other.depth),
        copied: word_or(words, 2, other.copied),
    });
    Ok(CallLimits {
        texts,
        operations: limited(word_or(words, 3, usize::MAX)),
    })
}

/// How many operations a patch may have where this is said: as many as there are where it is the most.
fn limited(most: usize) -> Option<usize>
    ensures { result ≡ most_said most }
{
    if most == usize::MAX { None } else { Some(most) }
}

fn word_or(words: &[usize], i: usize, other: usize) -> usize
    ensures { result ≡ slice_index_or words.now i other }
{
    words.get(i).copied().unwrap_or(other)
}
