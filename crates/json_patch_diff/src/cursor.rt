//! Members looked for in the order of their names.

ghost use Rattle.std.specs.Prelude.{◌≡◌, IfSome, MatchOption, false, option_map, true};
ghost use Rattle.serde_json.specs.Data.{member, no_members};
ghost use Rattle.serde_json.specs.Find.{get_member};
ghost use Rattle.serde_json.specs.View.{members_view, view};
ghost use Rattle.json_patch.specs.Document.{AreMembers, IsDocument};
ghost use Rattle.json_patch_diff.specs.Steps.{after, left};

use serde_json::{Map, Value};
use std::cmp::Ordering;
use std::collections::btree_map::Iter;

/// What is left of an object's members, which are in the order of their names: names that ascend are
/// all found in one pass.
#[derive(Drop)]
pub(crate) struct Cursor<'a> {
    /// The first member that is left.
    first: Option<(&'a String, &'a Value)>,
    /// Those after it.
    later: Iter<'a, String, Value>,
    /// Whether a member was passed over, since its name was not looked for.
    passed: bool,
}

impl<'a> Cursor<'a> {
    /// Before the first member.
    pub(crate) fn new(members: &'a Map<String, Value>) -> Cursor<'a>
        ensures all { left result.first result.later ≡ members_view members.now.entries }
        ensures none_passed { result.passed ≡ false }
    {
        let mut later = members.iter();
        Cursor {
            first: later.next(),
            later,
            passed: false,
        }
    }

    /// The member of this name, if one is left; those up to this name are no longer left.
    #[inline(always)]
    pub(crate) fn find(&mut self, name: &str) -> Option<&'a Value>
        requires { AreMembers (left self.old.first self.old.later) }
        ensures found { option_map (λ v. view v.now) result
            ≡ get_member name.now (left self.old.first self.old.later) }
        ensures document { IfSome result (λ v. IsDocument (view v.now)) }
        ensures after { left self.new.first self.new.later
            ≡ after name.now (left self.old.first self.old.later) }
        ensures in_step { self.new.passed ≡ false → (self.old.passed ≡ false)
            × MatchOption result
            (left self.new.first self.new.later ≡ left self.old.first self.old.later)
            (λ v. left self.old.first self.old.later
            ≡ member name.now (view v.now) (left self.new.first self.new.later)) }
    {
        while let Some((other, value)) = self.first {
            if other.as_str() == name {
                self.first = self.later.next();
                return Some(value);
            }
            if let Ordering::Greater = other.as_str().cmp(name) {
                return None;
            }
            self.passed = true;
            self.first = self.later.next();
        }
        None
    }

    /// Whether each member was found.
    pub(crate) fn found_all(&self) -> bool
        ensures { result ≡ true → (self.now.passed ≡ false)
            × (left self.now.first self.now.later ≡ no_members) }
    {
        !self.passed && self.first.is_none()
    }
}
