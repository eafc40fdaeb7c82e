//! A document's handle, which C holds: a pointer, null while no document is open.

ghost use Rattle.std.specs.Prelude.{◌≡◌, Option, Some, None, option_map};
ghost use Rattle.std.specs.Coded.{coded_option};
ghost use Rattle.json_patch_c.specs.declared.kept.Kept.{Kept as Held};
ghost use Rattle.json_patch_c.specs.contracts.kept.Kept.{the_row};
ghost use Rattle.json_patch_c.specs.Documents.{owned};

use crate::kept::Kept;
use crate::parts::Parts;
use std::alloc::Global;
use std::marker::Model;

/// A pointer to a `Kept`, as one to bytes, since a pointer to a `Kept` doesn't cross to C.
#[repr(C)]
#[derive(Drop)]
pub struct Document {
    at: *mut u8,
    pub ghost held: { Option Held } by { coded_option the_row.coded },
}

impl Model for Document {
    ghost also_owns = { λ d. owned the_row d.at d.held };
}

impl Document {
    fn empty() -> Document
        ensures { result.held ≡ None }
    {
        Document {
            at: std::ptr::null_mut(),
        }
    }

    fn of_parts(parts: Parts<Kept, Global>) -> Document
        ensures { result.held ≡ Some parts.value }
    {
        let Parts { ptr, alloc: _ } = parts;
        Document { at: ptr as *mut u8 }
    }

    fn into_parts(self, alloc: Global) -> Option<Parts<Kept, Global>>
        ensures { option_map (λ p. p.value) result ≡ self.held }
    {
        let Document { at } = self;
        if at.is_null() {
            return None;
        }
        Some(Parts {
            ptr: at as *mut Kept,
            alloc,
        })
    }

    /// Holds what is handed in.
    pub(crate) fn put(&mut self, kept: Box<Kept, Global>)
        requires { self.old.held ≡ None }
        ensures { self.new.held ≡ Some kept.value }
    {
        *self = Document::of_parts(Parts::of(kept));
    }

    /// Hands out what is held.
    pub(crate) fn take(&mut self, alloc: Global) -> Option<Box<Kept, Global>>
        ensures held { option_map (λ p. p.value) result ≡ self.old.held }
        ensures empty { self.new.held ≡ None }
    {
        match std::mem::replace(self, Document::empty()).into_parts(alloc) {
            Some(parts) => Some(parts.into_box()),
            None => None,
        }
    }
}
