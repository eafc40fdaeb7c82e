//! The laws of JSON Patch (RFC 6902) and JSON Merge Patch (RFC 7396).
#![tactic(auto)]

pub mod laws;
