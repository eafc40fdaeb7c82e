//! The limits of the calls.

ghost use Rattle.std.specs.Prelude.{◌≡◌, ◌≤◌};
ghost use Rattle.json_patch_bytes.specs.Bounds.{the_limits, within_most};

use json_patch::Limits;

/// The most levels of a document: each answer has at most three more, and can be read again.
const MOST_LEVELS: usize = 124;
/// How much is copied, where the caller names no limit.
const MOST_COPIED: usize = 500_000;

/// The limits where the caller names none: 124 levels, and copies of 500,000 values and bytes.
pub fn default_limits() -> Limits
    ensures { result ≡ the_limits }
{
    Limits {
        depth: MOST_LEVELS,
        copied: MOST_COPIED,
    }
}

/// The limits of a call whose caller names these; a depth past 124 counts as 124.
pub fn within_most(limits: &Limits) -> Limits
    ensures limits { result ≡ within_most limits.now }
    ensures bounded { result.depth ≤ 124 }
{
    Limits {
        depth: limits.depth.min(MOST_LEVELS),
        copied: limits.copied,
    }
}
