//! What takes changes back, to a mark, and from there to the one before.

ghost use Rattle.std.specs.Prelude.{◌≡◌, ⊤, IsTrue, OnErr, OnOk};
ghost use Rattle.json_pieces.specs.Held.{held};
ghost use Rattle.json_pieces.specs.Logs.{CanLead, HasRoom, IsMarked, IsMore, IsSameLog, IsTakenBack, StartsOver, is_on};

use crate::back::{Change, take_back};
use crate::node::Node;
use crate::work::Work;
use std::alloc::{AllocError, Global};
use std::mem;

/// For so many changes a log has room from the start.
const ROOM: usize = 4;

/// What takes changes back.
#[derive(Drop)]
pub(crate) enum Log<'a> {
    /// There is no mark, and nothing is kept.
    Off,
    /// The changes since the mark, the last one last, and those before it since another, if there was one.
    On(Vec<Change<'a>>, Option<Vec<Change<'a>>>),
}

impl<'a> Log<'a> {
    /// Sets a mark. Of those before it the last is kept.
    pub(crate) fn mark(&mut self, alloc: Global) -> Result<(), AllocError>
        ensures marked { OnOk result (IsMarked self.old self.new) }
        ensures same { OnErr result (self.new ≡ self.old) }
    {
        let changes = Vec::with_capacity(alloc, ROOM)?;
        let earlier = match mem::replace(self, Log::Off) {
            Log::Off => None,
            Log::On(earlier, _) => Some(earlier),
        };
        *self = Log::On(changes, earlier);
        Ok(())
    }

    /// Whether there is a mark.
    pub(crate) fn is_on(&self) -> bool
        ensures { result ≡ is_on self.now }
    {
        match self {
            Log::Off => false,
            Log::On(_, _) => true,
        }
    }

    /// Whether taking back begins by putting a value in the place of the whole, whatever that is.
    pub(crate) fn starts_over(&self) -> bool
        ensures { IsTrue result → StartsOver self.now }
    {
        match self {
            Log::Off => false,
            Log::On(changes, _) => match changes.last() {
                Some(change) => change.starts_over(),
                None => false,
            },
        }
    }

    /// Makes room for a change, if it will be kept.
    pub(crate) fn ready(&mut self) -> Result<(), AllocError>
        ensures same { IsSameLog self.old self.new }
        ensures room { OnOk result (HasRoom self.new) }
    {
        match self {
            Log::Off => Ok(()),
            Log::On(changes, _) => changes.reserve(1),
        }
    }

    /// Keeps what takes a change back, if there was one and there is a mark. There is room for it.
    pub(crate) fn keep(&mut self, work: Work<'a>)
        requires { HasRoom self.old }
        ensures { IsMore self.old work.entry.place.items work.entry.steps.items self.new }
    {
        if work.steps.is_empty() {
            return;
        }
        match self {
            Log::Off => {}
            Log::On(changes, _) => changes.push_reserved(Change {
                place: work.place,
                steps: work.steps,
            }),
        }
    }

    /// Takes the changes since the mark back, the last one first, with no memory. The mark before is the
    /// last one then.
    pub(crate) fn take_back(&mut self, node: &mut Node<'a>)
        requires { CanLead self.old (λ p. ⊤) (held node.old) }
        ensures { IsTakenBack self.old (held node.old) self.new (held node.new) }
    {
        let Log::On(mut changes, earlier) = mem::replace(self, Log::Off) else {
            return;
        };
        take_back(node, &mut changes);
        if let Some(changes) = earlier {
            *self = Log::On(changes, None);
        }
    }
}
