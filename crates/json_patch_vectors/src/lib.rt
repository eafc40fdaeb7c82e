//! Tests of `json_patch`, `json_merge_diff`, `json_patch_editor` and `json_patch_answers`: published
//! vectors and worked examples, as tables of cases. Further rows are run by `json_patch_memory`. It has
//! no public item.
#![tactic(auto)]

#[cfg(test)]
mod always_out_of_memory;
#[cfg(test)]
mod apart;
#[cfg(test)]
mod callers;
#[cfg(test)]
mod computed;
#[cfg(test)]
mod documentation;
#[cfg(test)]
mod editor;
#[cfg(test)]
mod equality;
#[cfg(test)]
mod hostile;
#[cfg(test)]
mod merge_diffs;
#[cfg(test)]
mod merges;
#[cfg(test)]
mod pointers;
#[cfg(test)]
mod printing;
#[cfg(test)]
mod program;
#[cfg(test)]
mod reading;
#[cfg(test)]
mod refusals;
#[cfg(test)]
mod rfc6901;
#[cfg(test)]
mod rfc6902;
#[cfg(test)]
mod runner;
#[cfg(test)]
mod shared;
#[cfg(test)]
mod texts;
#[cfg(test)]
mod worked;
#[cfg(test)]
mod writing;
