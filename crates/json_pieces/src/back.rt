//! What takes a change of a value in pieces back, with no memory.

ghost use Rattle.std.specs.Prelude.{◌≡◌, ◌<◌, [], length, IsTrue};
ghost use Rattle.json_pieces.specs.Backs.{AreBack, IsAloneAgain, IsBack, IsBackAt, IsBackIn, IsBackOut, IsBackValue, IsInRow, LogLeads, Moves, PutsWhole, step_of};
ghost use Rattle.json_pieces.specs.Held.{Held, held, row_held};
ghost use Rattle.json_pieces.specs.Logged.{AreInRow};
ghost use Rattle.json_pieces.specs.declared.node.Node.{Node};

use crate::node::{Node, Row};
use crate::row::{Slot, swap_at};
use crate::seams::Seam;
use crate::text::Text;

/// One level on the way to a place: the number of the value there, and how many bytes its row had.
#[derive(Clone, Copy)]
pub(crate) struct Level {
    pub number: usize,
    pub length: usize,
}

/// A step back. A row has so many bytes behind it as its last number says.
#[derive(Drop)]
pub(crate) enum Back<'a> {
    /// This comes in the place of the value.
    Swap(Node<'a>),
    /// This comes in the place of the value of this number in it.
    Value(usize, Node<'a>, usize),
    /// The part of this number goes out of it, and its whitespace to the slot.
    Out(usize, Slot, usize),
    /// This part comes into it at this number, with whitespace from the slot.
    In(usize, Seam<'a>, Node<'a>, Slot, usize),
    /// This part comes into it while it is empty, and it has this whitespace for another such time.
    Alone(Seam<'a>, Node<'a>, Text<'a>, usize),
}

/// A change that was made, by what takes it back: steps at one place, the last one first.
#[derive(Drop)]
pub(crate) struct Change<'a> {
    pub place: Vec<Level>,
    pub steps: Vec<Back<'a>>,
}

impl<'a> Change<'a> {
    /// Whether going back begins by putting a value in the place of the whole, whatever that is.
    pub(crate) fn starts_over(&self) -> bool
        ensures { IsTrue result → PutsWhole self.now }
    {
        self.place.is_empty() && matches!(self.steps.last(), Some(Back::Swap(_)))
    }
}

/// The value that a step has.
pub(crate) fn value_of<'a>(step: Back<'a>) -> Node<'a>
    ensures { (v : Node) → Moves step.entry v → result ≡ v }
{
    match step {
        Back::Swap(value) => value,
        Back::Value(_, value, _) => value,
        Back::Out(_, _, _) => Node::Closed(Text::Empty),
        Back::In(_, _, value, _, _) => value,
        Back::Alone(_, value, _, _) => value,
    }
}

/// Puts a value in the place of that of this number.
fn back_value<'a>(row: &mut Row<'a>, number: usize, value: Node<'a>, length: usize)
    requires { (p : Held) × IsBackValue number (held value) length (row_held row.old) p }
    ensures { (p : Held) → IsBackValue number (held value.entry) length (row_held row.old) p → row_held row.new ≡ p }
{
    row.values.exchange(number, value);
    row.length = length;
}

/// Takes the part of this number out.
fn back_out(row: &mut Row<'_>, number: usize, slot: Slot, length: usize)
    requires { (p : Held) × IsBackOut number slot length (row_held row.old) p }
    ensures { (p : Held) → IsBackOut number slot length (row_held row.old) p → row_held row.new ≡ p }
{
    let mut seam = row.seams.take(number);
    row.values.remove(number);
    swap_at(row, slot, &mut seam);
    row.length = length;
}

/// Puts a part in at this number. There is room for it.
fn back_in<'a>(
    row: &mut Row<'a>,
    number: usize,
    part: (Seam<'a>, Node<'a>),
    slot: Slot,
    length: usize,
)
    requires { (p : Held) × IsBackIn number part.0 (held part.1) slot length (row_held row.old) p }
    ensures { (p : Held) → IsBackIn number part.entry.0 (held part.entry.1) slot length (row_held row.old) p → row_held row.new ≡ p }
{
    let (mut seam, value) = part;
    swap_at(row, slot, &mut seam);
    row.seams.put_back(number, seam);
    row.values.put(number, value, usize::MAX);
    row.length = length;
}

/// Puts a part into an empty row. There is room for it.
fn back_alone<'a>(row: &mut Row<'a>, part: (Seam<'a>, Node<'a>), hollow: Text<'a>, length: usize)
    requires { (p : Held) × IsAloneAgain part.0 (held part.1) hollow length (row_held row.old) p }
    ensures { (p : Held) → IsAloneAgain part.entry.0 (held part.entry.1) hollow.entry length (row_held row.old) p → row_held row.new ≡ p }
{
    let (seam, value) = part;
    row.hollow = hollow;
    row.seams.put(0, seam, None);
    row.values.put(0, value, usize::MAX);
    row.length = length;
}

/// Goes a step back in the row.
fn back_row<'a>(row: &mut Row<'a>, step: Back<'a>)
    requires can { (p : Held) × IsBack (step_of step) (row_held row.old) p }
    requires inner { IsInRow (step_of step) }
    ensures { (p : Held) → IsBack (step_of step.entry) (row_held row.old) p → row_held row.new ≡ p }
{
    match step {
        Back::Swap(_) => unreachable!(),
        Back::Value(number, value, length) => back_value(row, number, value, length),
        Back::Out(number, slot, length) => back_out(row, number, slot, length),
        Back::In(number, seam, value, slot, length) => back_in(
            row,
            number,
            (seam, value),
            slot,
            length,
        ),
        Back::Alone(seam, value, hollow, length) => back_alone(row, (seam, value), hollow, length),
    }
}

/// Goes back in the row by steps, the last one first.
pub(crate) fn back_in_row<'a>(row: &mut Row<'a>, steps: &mut Vec<Back<'a>>)
    requires can { (p : Held) × AreBack steps.old.items (row_held row.old) p }
    requires inner { AreInRow steps.old.items }
    ensures back { (p : Held) → AreBack steps.old.items (row_held row.old) p → row_held row.new ≡ p }
    ensures none { steps.new.items ≡ [] }
{
    while let Some(step) = steps.pop() {
        back_row(row, step);
    }
}

/// Goes a step back.
fn back_here<'a>(node: &mut Node<'a>, step: Back<'a>)
    requires { (p : Held) × IsBack (step_of step) (held node.old) p }
    ensures { (p : Held) → IsBack (step_of step.entry) (held node.old) p → held node.new ≡ p }
{
    if let Back::Swap(value) = step {
        *node = value;
        return;
    }
    match node {
        Node::Closed(_) => unreachable!(),
        Node::Open(row) => back_row(row, step),
    }
}

/// Goes back by steps, the last one first.
fn back_by<'a>(node: &mut Node<'a>, mut steps: Vec<Back<'a>>)
    requires { (p : Held) × AreBack steps.items (held node.old) p }
    ensures { (p : Held) → AreBack steps.entry.items (held node.old) p → held node.new ≡ p }
{
    while let Some(step) = steps.pop() {
        back_here(node, step);
    }
}

/// The same where the levels lead, from the one of this number on.
#[cycle(back)]
fn back_at<'a>(node: &mut Node<'a>, place: &[Level], steps: Vec<Back<'a>>)
    requires { (p : Held) × IsBackAt place.now steps.items (held node.old) p }
    ensures { (p : Held) → IsBackAt place.now steps.entry.items (held node.old) p → held node.new ≡ p }
{
    if place.is_empty() {
        return back_by(node, steps);
    }
    match node {
        Node::Closed(_) => unreachable!(),
        Node::Open(row) => back_below(row, place, steps),
    }
}

#[cycle(back)]
fn back_below<'a>(row: &mut Row<'a>, place: &[Level], steps: Vec<Back<'a>>)
    requires some { 0 < length place.now }
    requires can { (p : Held) × IsBackAt place.now steps.items (row_held row.old) p }
    ensures { (p : Held) → IsBackAt place.now steps.entry.items (row_held row.old) p → row_held row.new ≡ p }
{
    let level = place[0];
    let mut value = row.values.exchange(level.number, Node::Closed(Text::Empty));
    back_at(&mut value, &place[1..], steps);
    row.values.exchange(level.number, value);
    row.length = level.length;
}

/// Takes the changes back, the last one first, with no memory.
pub(crate) fn take_back<'a>(node: &mut Node<'a>, log: &mut Vec<Change<'a>>)
    requires { (p : Held) × LogLeads log.old.items (held node.old) p }
    ensures back { (p : Held) → LogLeads log.old.items (held node.old) p → held node.new ≡ p }
    ensures none { log.new.items ≡ [] }
{
    while let Some(change) = log.pop() {
        let Change { place, steps } = change;
        back_at(node, place.as_slice(), steps);
    }
}
