//! What a call works with.

ghost use Rattle.std.specs.Prelude.{◌≡◌, ◌<◌, ◌++◌, ◌∷◌, [], false, true, IfOk, None, OnErr, OnOk, vec_capacity, vec_len};
ghost use Rattle.json_pieces.specs.Backs.{Moves};
ghost use Rattle.json_pieces.specs.Logged.{IsCopyOf};
ghost use Rattle.json_pieces.specs.Nodes.{IsSound, tree_text, view};
ghost use Rattle.json_pieces.specs.declared.node.Node.{Node};

use crate::back::{Back, Level, value_of};
use crate::means::Means;
use crate::node::{Node, written};
use crate::text::Text;
use std::alloc::AllocError;

/// What a call works with: what it may use, and what takes back what it does.
#[derive(Drop)]
pub(crate) struct Work<'a> {
    pub means: Means,
    /// Whether what takes it back is kept.
    pub logged: bool,
    /// Whether the pieces last, so that a small value in them stays closed.
    pub lasting: bool,
    /// How many members and elements it opened.
    pub opened: usize,
    /// The way to the place that it changes.
    pub place: Vec<Level>,
    /// The steps back there, the last one first. Until a change is made there are none.
    pub steps: Vec<Back<'a>>,
}

impl<'a> Work<'a> {
    pub(crate) fn new(means: Means, logged: bool, lasting: bool) -> Work<'a>
        ensures means { result.means ≡ means }
        ensures logged { result.logged ≡ logged }
        ensures place { result.place.items ≡ [] }
        ensures steps { result.steps.items ≡ [] }
    {
        Work {
            means,
            logged,
            lasting,
            opened: 0,
            place: Vec::new(means.alloc),
            steps: Vec::new(means.alloc),
        }
    }

    /// Makes room for a step, if it will be kept.
    pub(crate) fn ready(&mut self) -> Result<(), AllocError>
        ensures means { self.new.means ≡ self.old.means }
        ensures logged { self.new.logged ≡ self.old.logged }
        ensures place { self.new.place ≡ self.old.place }
        ensures steps { self.new.steps.items ≡ self.old.steps.items }
        ensures room { OnOk result (self.old.logged ≡ true → vec_len self.new.steps < vec_capacity self.new.steps) }
        ensures failed { OnErr result (self.old.logged ≡ true) }
    {
        if self.logged {
            self.steps.reserve(1)?;
        }
        Ok(())
    }

    /// Keeps a step, for which there is room, if what takes the change back is kept.
    pub(crate) fn keep(&mut self, step: Back<'a>)
        requires { self.old.logged ≡ true → vec_len self.old.steps < vec_capacity self.old.steps }
        ensures means { self.new.means ≡ self.old.means }
        ensures logged { self.new.logged ≡ self.old.logged }
        ensures place { self.new.place ≡ self.old.place }
        ensures steps { self.old.logged ≡ true → self.new.steps.items ≡ self.old.steps.items ++ step.entry ∷ [] }
    {
        if self.logged {
            self.steps.push_reserved(step);
        }
    }

    /// Notes a level of the way, if what takes the change back is kept.
    // Not inlined: each level on the way would else hold its room.
    #[inline(never)]
    pub(crate) fn enter(&mut self, level: Level) -> Result<(), AllocError>
        ensures means { self.new.means ≡ self.old.means }
        ensures logged { self.new.logged ≡ self.old.logged }
        ensures steps { self.new.steps ≡ self.old.steps }
        ensures place { OnOk result (self.old.logged ≡ true → self.new.place.items ≡ self.old.place.items ++ level ∷ []) }
    {
        if self.logged && self.place.push(level).is_err() {
            return Err(AllocError);
        }
        Ok(())
    }
}

/// The text of a value, if the value itself will be kept.
pub(crate) fn copied(work: &Work<'_>, node: &Node<'_>) -> Result<Option<String>, AllocError>
    requires { IsSound (view node.now) }
    ensures copy { IfOk result (λ copy. IsCopyOf copy node.now) }
    ensures none { IfOk result (λ copy. copy ≡ None → work.now.logged ≡ false) }
{
    if work.logged {
        return Ok(Some(written(work.means.alloc, node)?));
    }
    Ok(None)
}

/// Keeps a step, if there is a copy of the value in it, and answers that; else the value itself.
pub(crate) fn moved<'a>(work: &mut Work<'a>, step: Back<'a>, copy: Option<String>) -> Node<'a>
    requires room { work.old.logged ≡ true → vec_len work.old.steps < vec_capacity work.old.steps }
    requires none { copy ≡ None → work.old.logged ≡ false }
    ensures text { (v : Node) → Moves step.entry v → IsCopyOf copy v → tree_text (view result) ≡ tree_text (view v) }
    ensures sound { (v : Node) → Moves step.entry v → IsSound (view v) → IsSound (view result) }
    ensures means { work.new.means ≡ work.old.means }
    ensures logged { work.new.logged ≡ work.old.logged }
    ensures place { work.new.place ≡ work.old.place }
    ensures steps { work.old.logged ≡ true → work.new.steps.items ≡ work.old.steps.items ++ step.entry ∷ [] }
{
    match copy {
        Some(text) => {
            work.keep(step);
            Node::Closed(Text::Made(text))
        }
        None => value_of(step),
    }
}
