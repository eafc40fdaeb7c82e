//! Proved programs over JSON Patch, of a page each, on the public contracts alone.
#![tactic(auto)]

mod example;
mod guarded;
mod history;
mod layers;
mod newest;
mod pointers;
mod replaced;
mod section;
mod sending;
mod session;
mod settings;
mod shared;
mod store;
mod text_editor;
mod texts;
mod versioned;

pub use example::first_example;
pub use guarded::{GuardFault, Guarded};
pub use layers::{merge_all, number_or};
pub use newest::undo_newest;
pub use pointers::{depth, element, member};
pub use replaced::replace_with;
pub use section::{SectionFault, patch_section};
pub use sending::{Message, receive, send, send_both};
pub use session::tried;
pub use settings::Settings;
pub use shared::{ChangeFault, SharedDocument};
pub use store::Store;
pub use text_editor::TextEditor;
pub use texts::patched;
pub use versioned::{VersionFault, update_version};
