//! Patches made from two JSON texts, of any numbers: the patch (RFC 6902), as it is, with moves or with
//! tests, and the merge patch (RFC 7396) between them, [`diff_text`], [`moving_diff_text`],
//! [`guarded_diff_text`] and [`merge_diff_text`], and of two merge patches one that does both,
//! [`merge_both_text`].
//!
//! Each text is read as a document in which a whole number stands for each numeral, the same one where
//! equal numbers are compared. `json_patch_diff`, `json_patch_moves` or `json_merge_diff` makes the patch
//! of the two documents, which is written with the numerals in place of the numbers. That it leads from
//! the one text to the other rests on this: an operation that is accepted does with other numbers what it
//! does with these, and so does a merge.
#![tactic(auto)]

mod coding;
mod comparing;
mod composing;
mod difference;
mod fault;
mod guarding;
mod key;
mod merging;
mod moving;
mod numerals;
mod reading;
mod showing;
mod spelling;
mod writing;

pub use comparing::MOST_LEVELS;
pub use composing::merge_both_text;
pub use difference::diff_text;
pub use fault::{BothTextFault, DiffTextFault};
pub use guarding::guarded_diff_text;
pub use merging::merge_diff_text;
pub use moving::moving_diff_text;
