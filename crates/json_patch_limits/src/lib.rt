//! Limits of a list of operations: how deep a value may reach, and how much may be copied.
#![tactic(auto)]

pub mod charge;
pub mod limits;
pub mod measure;
