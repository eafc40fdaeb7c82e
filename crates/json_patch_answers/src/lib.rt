//! The line that answers a document and a patch, as bytes, in each mode of the program
//! `json_patch_tool`, or the fault that comes in its place. No reader and no writer is known here.
#![tactic(auto)]

mod answer;
mod editing;
mod fault;
mod input;
pub mod laws;
mod line;
mod mode;

pub use answer::respond;
pub use fault::{ToolFault, status};
pub use input::MAX_INPUT;
pub use mode::{Mode, mode_of, usage};
