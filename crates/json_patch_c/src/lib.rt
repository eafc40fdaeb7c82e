//! JSON Patch (RFC 6902) and JSON Merge Patch (RFC 7396) for C: in `texts` on JSON texts as they are written, and
//! in `handle` on a document that is kept. Every call is within limits.
//!
//! `c/json_patch.h` declares these functions, and says what their caller owes. Each but
//! `json_patch_close` returns a status, and fills a report. What a status says that several calls
//! return stands once, in `IsTextWritten`, `IsBothWritten` and `IsTold`.
#![tactic(auto)]

mod document;
mod given;
mod handle;
mod kept;
mod parts;
mod report;
mod status;
mod texts;
