//! A member or an element found in a row, taken out of it or put into it.

ghost use Rattle.std.specs.Prelude.{◌≡◌, ◌<◌, ◌≤◌, ◌+◌, ◌^◌, ◌∷◌, [], false, is_some, length, List, slice_index_or, true, Some, None, IfNone, IfOk, IfSome, MatchOption, OnErr, OnOk};
ghost use Rattle.jsonptr.specs.Places.{place_of};
ghost use Rattle.jsonptr.specs.Pointers.{token_of};
ghost use Rattle.json.specs.Json.{Json};
ghost use Rattle.json_pieces.specs.Backs.{IsBack, IsInRow, Moves, step_of};
ghost use Rattle.json_pieces.specs.Finer.{IsOpenedFrom};
ghost use Rattle.json_pieces.specs.Held.{row_held};
ghost use Rattle.json_pieces.specs.Logged.{IsStep, IsStepped};
ghost use Rattle.json_pieces.specs.declared.node.Node.{Node};
ghost use Rattle.json_pieces.specs.Edits.{PutsIn, TakesOut};
ghost use Rattle.json_pieces.specs.Nodes.{IsSound, IsWhole, row_pieces, row_view, text_bytes, tree_text, view};
ghost use Rattle.json_pieces.specs.Lengths.{seam_length};
ghost use Rattle.json_pieces.specs.Slots.{AreSwapped, IsPut, IsSlotOf, commas_of};
ghost use Rattle.json_pieces.specs.PieceLists.{element_pushed, element_put, member_pushed, taken, with_value};
ghost use Rattle.json.specs.Print.{quoted};
ghost use Rattle.json_lexemes.specs.Spelled.{Says};
ghost use Rattle.json_text.specs.Cuts.{AllSuit};
ghost use Rattle.json_text.specs.Less.{IsNumberOf};
ghost use Rattle.json_text.specs.Pointed.{child, IsWrittenAt};
ghost use Rattle.json_text.specs.Rows.{Child, tree_in};
ghost use Rattle.long_vec.specs.Items.{capacity_of, items_of};

use crate::back::{Back, back_in_row};
use crate::means::{Means, sum};
use crate::node::{Node, Row};
use crate::seams::Seam;
use crate::text::Text;
use crate::work::{Work, copied, moved};
use json_text::quoted;
use jsonptr::Token;
use jsonptr::index::Index;
use std::alloc::{AllocError, Global};
use std::mem;

/// The number of the element that a token names, of so many.
fn element_number(name: &str, count: usize) -> Option<usize>
    ensures place { IfSome result (λ n. place_of name.now ≡ Some n) }
    ensures within { IfSome result (λ n. n < count) }
    ensures none { IfNone result ((cs : List Child) → length cs ≡ count
        → child name.now (tree_in false cs) ≡ None) }
{
    match Index::parse(name) {
        Ok(Index::Num(number)) => { if number < count { Some(number) } else { None } }
        Ok(Index::Next) => None,
        Err(_) => None,
    }
}

/// The number of the member or element that a token names, if it is there.
pub(crate) fn number_of(row: &Row<'_>, name: &str) -> Option<usize>
    requires sound { IsSound (row_view row.now) }
    ensures number { (cs : List Child) → AllSuit row.now.named cs (row_pieces row.now)
        → MatchOption result (child name.now (tree_in row.now.named cs) ≡ None)
        (IsNumberOf row.now.named cs name.now) }
    ensures within { IfSome result (λ n. n < length (items_of row.now.values)) }
{
    if row.named {
        row.seams.last_named(name)
    } else {
        element_number(name, row.count())
    }
}

/// The same of a token as a pointer has it.
// Not inlined: each level on the way would else hold the name's room.
#[inline(never)]
pub(crate) fn number_at(
    alloc: Global,
    row: &Row<'_>,
    token: Token<'_>,
) -> Result<Option<usize>, AllocError>
    requires sound { IsSound (row_view row.now) }
    ensures number { IfOk result (λ found. (cs : List Child) → AllSuit row.now.named cs (row_pieces row.now)
        → MatchOption found (child (token_of token.entry) (tree_in row.now.named cs) ≡ None)
        (IsNumberOf row.now.named cs (token_of token.entry))) }
    ensures within { IfOk result (λ found. IfSome found (λ n. n < length (items_of row.now.values))) }
{
    let name = token.decoded(alloc)?;
    Ok(number_of(row, name.as_str()))
}

impl<'a> Seam<'a> {
    fn len(&self) -> usize
        requires { seam_length self.now < 2 ^ 64 }
        ensures { result ≡ seam_length self.now }
    {
        self.whitespace.len() + self.name.len() + self.colons.len() + self.trail.len()
    }
}

/// Takes out one that is not the last: its whitespace stays, before the next one. What takes that back
/// has the value.
fn take_before<'a>(row: &mut Row<'a>, number: usize, name: &str) -> Back<'a>
    requires sound { IsSound (row_view row.old) }
    requires within { number + 1 < length (items_of row.old.values) }
    ensures named { row.new.named ≡ row.old.named }
    ensures less { length (items_of row.new.values) + 1 ≡ length (items_of row.old.values) }
    ensures pieces { row_pieces row.new ≡ taken number (row_pieces row.old) }
    ensures some { taken number (row_pieces row.old) ≡ [] → text_bytes row.new.hollow ≡ [] }
    ensures sound { IsSound (row_view row.new) }
    ensures shorter { row.new.length ≤ row.old.length }
    ensures value { (v : Node) × Moves result v × (v ≡ slice_index_or (items_of row.old.values) number v) }
    ensures back { IsBack (step_of result) (row_held row.new) (row_held row.old) }
    ensures inner { IsInRow (step_of result) }
{
    let length = row.length;
    let mut seam = row.seams.remove(number, name);
    let value = row.values.remove(number);
    row.seams.swap_whitespace(number, &mut seam.whitespace);
    row.length = length - (seam.len() + value.len() + 1);
    Back::In(number, seam, value, Slot::Whitespace(number), length)
}

/// Takes out the last of several: the whitespace behind it stays, behind the one before.
fn take_last<'a>(row: &mut Row<'a>, number: usize, name: &str) -> Back<'a>
    requires sound { IsSound (row_view row.old) }
    requires first { 0 < number }
    requires last { number + 1 ≡ length (items_of row.old.values) }
    ensures named { row.new.named ≡ row.old.named }
    ensures less { length (items_of row.new.values) + 1 ≡ length (items_of row.old.values) }
    ensures pieces { row_pieces row.new ≡ taken number (row_pieces row.old) }
    ensures some { taken number (row_pieces row.old) ≡ [] → text_bytes row.new.hollow ≡ [] }
    ensures sound { IsSound (row_view row.new) }
    ensures shorter { row.new.length ≤ row.old.length }
    ensures value { (v : Node) × Moves result v × (v ≡ slice_index_or (items_of row.old.values) number v) }
    ensures back { IsBack (step_of result) (row_held row.new) (row_held row.old) }
    ensures inner { IsInRow (step_of result) }
{
    let length = row.length;
    let mut seam = row.seams.remove(number, name);
    let value = row.values.remove(number);
    row.seams.swap_trail(number - 1, &mut seam.trail);
    row.length = length - (seam.len() + value.len() + 1);
    Back::In(number, seam, value, Slot::Trail(number - 1), length)
}

/// Takes out the only one.
fn take_alone<'a>(row: &mut Row<'a>, name: &str) -> Back<'a>
    requires sound { IsSound (row_view row.old) }
    requires alone { length (items_of row.old.values) ≡ 1 }
    ensures named { row.new.named ≡ row.old.named }
    ensures less { length (items_of row.new.values) + 1 ≡ length (items_of row.old.values) }
    ensures pieces { row_pieces row.new ≡ taken 0 (row_pieces row.old) }
    ensures some { taken 0 (row_pieces row.old) ≡ [] → text_bytes row.new.hollow ≡ [] }
    ensures sound { IsSound (row_view row.new) }
    ensures shorter { row.new.length ≤ row.old.length }
    ensures value { (v : Node) × Moves result v × (v ≡ slice_index_or (items_of row.old.values) 0 v) }
    ensures back { IsBack (step_of result) (row_held row.new) (row_held row.old) }
    ensures inner { IsInRow (step_of result) }
{
    let seam = row.seams.remove(0, name);
    let value = row.values.remove(0);
    let hollow = mem::replace(&mut row.hollow, Text::Empty);
    let length = row.length;
    row.length = 2;
    Back::Alone(seam, value, hollow, length)
}

/// Takes out the member or element of this number, the last of this name. Its whitespace stays before the
/// next one; of the last one the whitespace behind it stays, behind the one before.
fn take_part<'a>(row: &mut Row<'a>, number: usize, name: &str) -> Back<'a>
    requires sound { IsSound (row_view row.old) }
    requires within { number < length (items_of row.old.values) }
    ensures named { row.new.named ≡ row.old.named }
    ensures less { length (items_of row.new.values) + 1 ≡ length (items_of row.old.values) }
    ensures pieces { row_pieces row.new ≡ taken number (row_pieces row.old) }
    ensures some { taken number (row_pieces row.old) ≡ [] → text_bytes row.new.hollow ≡ [] }
    ensures sound { IsSound (row_view row.new) }
    ensures shorter { row.new.length ≤ row.old.length }
    ensures value { (v : Node) × Moves result v × (v ≡ slice_index_or (items_of row.old.values) number v) }
    ensures back { IsBack (step_of result) (row_held row.new) (row_held row.old) }
    ensures inner { IsInRow (step_of result) }
{
    if number < row.count() - 1 {
        take_before(row, number, name)
    } else if number > 0 {
        take_last(row, number, name)
    } else {
        take_alone(row, name)
    }
}

/// Takes out all that a token names, and answers the value to which it leads: of several members of one
/// name the last one's. That is the value itself, or a copy where it is kept for the way back.
pub(crate) fn take<'a>(
    work: &mut Work<'a>,
    row: &mut Row<'a>,
    name: &str,
) -> Result<Option<Node<'a>>, AllocError>
    requires sound { IsSound (row_view row.old) }
    requires steps { work.old.steps.items ≡ [] }
    ensures sound { IsSound (row_view row.new) }
    ensures shorter { row.new.length ≤ row.old.length }
    ensures unchanged { OnErr result (row_view row.new ≡ row_view row.old) }
    ensures taken { IfOk result (λ found. (j : Json) → Says (tree_text (row_view row.old)) j
        → TakesOut (tree_text (row_view row.old)) j name.now (tree_text (row_view row.new)) (is_some found)) }
    ensures value { IfOk result (λ found. IfSome found (λ v. IsSound (view v))) }
    ensures written { IfOk result (λ found. IfSome found (λ v. (j : Json) → Says (tree_text (row_view row.old)) j
        → IsWrittenAt (tree_text (row_view row.old)) j (name.now ∷ []) (tree_text (view v)))) }
    ensures led { work.old.logged ≡ true → IsStepped work.new.steps.items (row_held row.old) (row_held row.new) }
    ensures place { work.new.place ≡ work.old.place }
{
    let Some(number) = number_of(row, name) else {
        return Ok(None);
    };
    let copy = copied(work, row.values.at(number))?;
    work.ready()?;
    let step = take_part(row, number, name);
    let value = moved(work, step, copy);
    if !row.named {
        return Ok(Some(value));
    }
    while let Some(number) = number_of(row, name) {
        if work.ready().is_err() {
            back_in_row(row, &mut work.steps);
            return Err(AllocError);
        }
        let step = take_part(row, number, name);
        work.keep(step);
    }
    Ok(Some(value))
}

/// Puts a value in place of that of this number.
fn put_value<'a>(
    means: Means,
    row: &mut Row<'a>,
    number: usize,
    value: Node<'a>,
) -> Result<Back<'a>, AllocError>
    requires sound { IsSound (row_view row.old) }
    requires within { number < length (items_of row.old.values) }
    requires value { IsWhole (view value) }
    ensures named { OnOk result (row.new.named ≡ row.old.named) }
    ensures pieces { OnOk result (row_pieces row.new ≡ with_value number (tree_text (view value.entry)) (row_pieces row.old)) }
    ensures hollow { OnOk result (row.new.hollow ≡ row.old.hollow) }
    ensures sound { OnOk result (IsSound (row_view row.new)) }
    ensures grown { row.new.length ≤ row.old.length + means.room }
    ensures unchanged { OnErr result (row_view row.new ≡ row_view row.old) }
    ensures back { IfOk result (λ step. IsStep step (row_held row.old) (row_held row.new)) }
    ensures opened { OnErr result (IsOpenedFrom (row_held row.old) (row_held row.new)) }
{
    let length = means.resized(row.length, row.values.at(number).len(), value.len())?;
    let old = row.values.exchange(number, value);
    let before = row.length;
    row.length = length;
    Ok(Back::Value(number, old, before))
}

/// How many bytes a part and some commas have, or no memory.
fn part_length(seam: &Seam<'_>, value: usize, commas: usize) -> Result<usize, AllocError>
    ensures { IfOk result (λ new. new ≡ seam_length seam.now + value + commas) }
{
    let length = sum(seam.whitespace.len(), seam.name.len())?;
    let length = sum(length, seam.colons.len())?;
    let length = sum(length, seam.trail.len())?;
    let length = sum(length, value)?;
    sum(length, commas)
}

/// Where a part that comes into a row gets whitespace from, for some of its own.
#[derive(Clone, Copy)]
pub(crate) enum Slot {
    /// What is behind it from between the brackets of an empty row.
    Hollow,
    /// What is before it from before the part of this number.
    Whitespace(usize),
    /// What is behind it from behind the part of this number.
    Trail(usize),
}

impl Slot {
    /// How many commas come with the part.
    fn commas(self) -> usize
        ensures { result ≡ commas_of self }
    {
        match self {
            Slot::Hollow => 0,
            Slot::Whitespace(_) => 1,
            Slot::Trail(_) => 1,
        }
    }
}

/// Exchanges the whitespace in the slot for that of the seam.
pub(crate) fn swap_at<'a>(row: &mut Row<'a>, slot: Slot, seam: &mut Seam<'a>)
    requires { IsSlotOf slot (length (items_of row.old.seams.all)) }
    ensures swapped { AreSwapped slot seam.old row.old.hollow (items_of row.old.seams.all) seam.new row.new.hollow (items_of row.new.seams.all) }
    ensures named { row.new.named ≡ row.old.named }
    ensures length { row.new.length ≡ row.old.length }
    ensures values { row.new.values ≡ row.old.values }
    ensures room { capacity_of row.new.seams.all ≡ capacity_of row.old.seams.all }
    ensures len { length (items_of row.new.seams.all) ≡ length (items_of row.old.seams.all) }
{
    match slot {
        Slot::Hollow => mem::swap(&mut row.hollow, &mut seam.trail),
        Slot::Whitespace(number) => row.seams.swap_whitespace(number, &mut seam.whitespace),
        Slot::Trail(number) => row.seams.swap_trail(number, &mut seam.trail),
    }
}

/// Puts in a part before the one of this number, or behind the last, with whitespace from the slot.
fn put_part<'a>(
    means: Means,
    row: &mut Row<'a>,
    number: usize,
    part: (Seam<'a>, Node<'a>),
    slot: Slot,
) -> Result<Back<'a>, AllocError>
    requires seams { number ≤ length (items_of row.old.seams.all) }
    requires values { number ≤ length (items_of row.old.values) }
    requires slot { IsSlotOf slot (length (items_of row.old.seams.all)) }
    requires value { IsSound (view part.1) }
    ensures put { OnOk result (IsPut slot number row.old part.entry.0 part.entry.1 row.new) }
    ensures grown { row.new.length ≤ row.old.length + means.room }
    ensures unchanged { OnErr result (row_view row.new ≡ row_view row.old) }
    ensures back { IfOk result (λ step. IsStep step (row_held row.old) (row_held row.new)) }
    ensures opened { OnErr result (IsOpenedFrom (row_held row.old) (row_held row.new)) }
{
    let (mut seam, value) = part;
    let before = row.length;
    let more = part_length(&seam, value.len(), slot.commas())?;
    let length = means.resized(before, 0, more)?;
    row.values.make_room(number)?;
    let index = row.seams.ready(number, &seam)?;
    swap_at(row, slot, &mut seam);
    row.seams.put(number, seam, index);
    row.values.put(number, value, usize::MAX);
    row.length = length;
    Ok(Back::Out(number, slot, before))
}

/// A seam of an element.
fn around<'a>(whitespace: Text<'a>) -> Seam<'a>
    ensures whitespace { result.whitespace ≡ whitespace.entry }
    ensures name { text_bytes result.name ≡ [] }
    ensures colons { text_bytes result.colons ≡ [] }
    ensures trail { text_bytes result.trail ≡ [] }
{
    Seam {
        whitespace,
        name: Text::Empty,
        colons: Text::Empty,
        trail: Text::Empty,
    }
}

/// A seam of a member.
fn labelled<'a>(whitespace: Text<'a>, name: Text<'a>, colons: Text<'a>) -> Seam<'a>
    ensures whitespace { result.whitespace ≡ whitespace.entry }
    ensures name { result.name ≡ name.entry }
    ensures colons { result.colons ≡ colons.entry }
    ensures trail { text_bytes result.trail ≡ [] }
{
    Seam {
        whitespace,
        name,
        colons,
        trail: Text::Empty,
    }
}

/// Puts a member into an empty row.
fn first_member<'a>(
    means: Means,
    row: &mut Row<'a>,
    name: &str,
    value: Node<'a>,
) -> Result<Back<'a>, AllocError>
    requires sound { IsSound (row_view row.old) }
    requires object { row.old.named ≡ true }
    requires empty { length (items_of row.old.values) ≡ 0 }
    requires value { IsWhole (view value) }
    ensures named { OnOk result (row.new.named ≡ row.old.named) }
    ensures pieces { OnOk result (row_pieces row.new ≡ member_pushed (text_bytes row.old.hollow) (quoted name.now) (tree_text (view value.entry)) (row_pieces row.old)) }
    ensures sound { OnOk result (IsSound (row_view row.new)) }
    ensures grown { row.new.length ≤ row.old.length + means.room }
    ensures unchanged { OnErr result (row_view row.new ≡ row_view row.old) }
    ensures back { IfOk result (λ step. IsStep step (row_held row.old) (row_held row.new)) }
    ensures opened { OnErr result (IsOpenedFrom (row_held row.old) (row_held row.new)) }
{
    let name = Text::Made(quoted(means.alloc, name)?);
    let seam = labelled(Text::Empty, name, Text::kept(":"));
    put_part(means, row, 0, (seam, value), Slot::Hollow)
}

/// Puts a member behind the last one.
fn next_member<'a>(
    means: Means,
    row: &mut Row<'a>,
    name: &str,
    value: Node<'a>,
) -> Result<Back<'a>, AllocError>
    requires sound { IsSound (row_view row.old) }
    requires object { row.old.named ≡ true }
    requires some { 0 < length (items_of row.old.values) }
    requires value { IsWhole (view value) }
    ensures named { OnOk result (row.new.named ≡ row.old.named) }
    ensures pieces { OnOk result (row_pieces row.new ≡ member_pushed (text_bytes row.old.hollow) (quoted name.now) (tree_text (view value.entry)) (row_pieces row.old)) }
    ensures sound { OnOk result (IsSound (row_view row.new)) }
    ensures grown { row.new.length ≤ row.old.length + means.room }
    ensures unchanged { OnErr result (row_view row.new ≡ row_view row.old) }
    ensures back { IfOk result (λ step. IsStep step (row_held row.old) (row_held row.new)) }
    ensures opened { OnErr result (IsOpenedFrom (row_held row.old) (row_held row.new)) }
{
    let count = row.count();
    let last = count - 1;
    let name = Text::Made(quoted(means.alloc, name)?);
    let whitespace = row
        .seams
        .all
        .at(last)
        .whitespace
        .whitespace_like(means.alloc)?;
    let colons = row.seams.all.at(last).colons.colons_like(means.alloc)?;
    let seam = labelled(whitespace, name, colons);
    put_part(means, row, count, (seam, value), Slot::Trail(last))
}

/// Puts an element into an empty row.
fn first_element<'a>(
    means: Means,
    row: &mut Row<'a>,
    value: Node<'a>,
) -> Result<Back<'a>, AllocError>
    requires sound { IsSound (row_view row.old) }
    requires array { row.old.named ≡ false }
    requires empty { length (items_of row.old.values) ≡ 0 }
    requires value { IsWhole (view value) }
    ensures named { OnOk result (row.new.named ≡ row.old.named) }
    ensures pieces { OnOk result (row_pieces row.new ≡ element_pushed (text_bytes row.old.hollow) (tree_text (view value.entry)) (row_pieces row.old)) }
    ensures sound { OnOk result (IsSound (row_view row.new)) }
    ensures grown { row.new.length ≤ row.old.length + means.room }
    ensures unchanged { OnErr result (row_view row.new ≡ row_view row.old) }
    ensures back { IfOk result (λ step. IsStep step (row_held row.old) (row_held row.new)) }
    ensures opened { OnErr result (IsOpenedFrom (row_held row.old) (row_held row.new)) }
{
    let seam = around(Text::Empty);
    put_part(means, row, 0, (seam, value), Slot::Hollow)
}

/// Puts an element behind the last one.
fn next_element<'a>(
    means: Means,
    row: &mut Row<'a>,
    value: Node<'a>,
) -> Result<Back<'a>, AllocError>
    requires sound { IsSound (row_view row.old) }
    requires array { row.old.named ≡ false }
    requires some { 0 < length (items_of row.old.values) }
    requires value { IsWhole (view value) }
    ensures named { OnOk result (row.new.named ≡ row.old.named) }
    ensures pieces { OnOk result (row_pieces row.new ≡ element_pushed (text_bytes row.old.hollow) (tree_text (view value.entry)) (row_pieces row.old)) }
    ensures sound { OnOk result (IsSound (row_view row.new)) }
    ensures grown { row.new.length ≤ row.old.length + means.room }
    ensures unchanged { OnErr result (row_view row.new ≡ row_view row.old) }
    ensures back { IfOk result (λ step. IsStep step (row_held row.old) (row_held row.new)) }
    ensures opened { OnErr result (IsOpenedFrom (row_held row.old) (row_held row.new)) }
{
    let count = row.count();
    let last = count - 1;
    let whitespace = row
        .seams
        .all
        .at(last)
        .whitespace
        .whitespace_like(means.alloc)?;
    let seam = around(whitespace);
    put_part(means, row, count, (seam, value), Slot::Trail(last))
}

/// Like whose whitespace that before an element of this number is, once another comes before it: the
/// second's before the first, if there is a second.
fn like_number(number: usize, count: usize) -> usize
    requires { number < count }
    ensures within { result < count }
    ensures first { number ≡ 0 → 1 < count → result ≡ 1 }
    ensures own { (number ≡ 0 → count ≡ 1) → result ≡ number }
{
    if number == 0 && count > 1 { 1 } else { number }
}

/// Puts an element before the one of this number. The whitespace of that one goes to the new one;
/// whitespace like it, or before the first like that of the second, stands before that one.
fn element_before<'a>(
    means: Means,
    row: &mut Row<'a>,
    number: usize,
    value: Node<'a>,
) -> Result<Back<'a>, AllocError>
    requires sound { IsSound (row_view row.old) }
    requires array { row.old.named ≡ false }
    requires within { number < length (items_of row.old.values) }
    requires value { IsWhole (view value) }
    ensures named { OnOk result (row.new.named ≡ row.old.named) }
    ensures pieces { OnOk result (row_pieces row.new ≡ element_put number (tree_text (view value.entry)) (row_pieces row.old)) }
    ensures sound { OnOk result (IsSound (row_view row.new)) }
    ensures grown { row.new.length ≤ row.old.length + means.room }
    ensures unchanged { OnErr result (row_view row.new ≡ row_view row.old) }
    ensures back { IfOk result (λ step. IsStep step (row_held row.old) (row_held row.new)) }
    ensures opened { OnErr result (IsOpenedFrom (row_held row.old) (row_held row.new)) }
{
    let like = like_number(number, row.count());
    let behind = row
        .seams
        .all
        .at(like)
        .whitespace
        .whitespace_like(means.alloc)?;
    let seam = around(behind);
    put_part(means, row, number, (seam, value), Slot::Whitespace(number))
}

/// Puts a value in as a member of this name, in place of that of the last one of this name, or as a new one.
fn put_member<'a>(
    means: Means,
    row: &mut Row<'a>,
    name: &str,
    value: Node<'a>,
) -> Result<Back<'a>, AllocError>
    requires sound { IsSound (row_view row.old) }
    requires object { row.old.named ≡ true }
    requires value { IsWhole (view value) }
    ensures sound { OnOk result (IsSound (row_view row.new)) }
    ensures grown { row.new.length ≤ row.old.length + means.room }
    ensures unchanged { OnErr result (row_view row.new ≡ row_view row.old) }
    ensures back { IfOk result (λ step. IsStep step (row_held row.old) (row_held row.new)) }
    ensures opened { OnErr result (IsOpenedFrom (row_held row.old) (row_held row.new)) }
    ensures put { IfOk result (λ done. (j : Json) → Says (tree_text (row_view row.old)) j
        → PutsIn (tree_text (row_view row.old)) j name.now (tree_text (view value.entry))
        (tree_text (row_view row.new)) true) }
{
    if let Some(number) = number_of(row, name) {
        return Ok(put_value(means, row, number, value)?);
    }
    let count = row.count();
    if count == 0 {
        return Ok(first_member(means, row, name, value)?);
    }
    Ok(next_member(means, row, name, value)?)
}

/// Puts a value in as the element at a place, if an array of so many has it.
fn put_element<'a>(
    means: Means,
    row: &mut Row<'a>,
    name: &str,
    value: Node<'a>,
) -> Result<Option<Back<'a>>, AllocError>
    requires sound { IsSound (row_view row.old) }
    requires array { row.old.named ≡ false }
    requires value { IsWhole (view value) }
    ensures sound { OnOk result (IsSound (row_view row.new)) }
    ensures grown { row.new.length ≤ row.old.length + means.room }
    ensures unchanged { OnErr result (row_view row.new ≡ row_view row.old) }
    ensures back { IfOk result (λ found. MatchOption found (IsOpenedFrom (row_held row.old) (row_held row.new)) (λ step. IsStep step (row_held row.old) (row_held row.new))) }
    ensures opened { OnErr result (IsOpenedFrom (row_held row.old) (row_held row.new)) }
    ensures put { IfOk result (λ found. (j : Json) → Says (tree_text (row_view row.old)) j
        → PutsIn (tree_text (row_view row.old)) j name.now (tree_text (view value.entry))
        (tree_text (row_view row.new)) (is_some found)) }
{
    let count = row.count();
    let Ok(index) = Index::parse(name) else {
        return Ok(None);
    };
    let Ok(number) = index.for_len_incl(count) else {
        return Ok(None);
    };
    if number < count {
        return Ok(Some(element_before(means, row, number, value)?));
    }
    if count == 0 {
        return Ok(Some(first_element(means, row, value)?));
    }
    Ok(Some(next_element(means, row, value)?))
}

/// Puts a value in as what a token names.
pub(crate) fn put<'a>(
    means: Means,
    row: &mut Row<'a>,
    name: &str,
    value: Node<'a>,
) -> Result<Option<Back<'a>>, AllocError>
    requires sound { IsSound (row_view row.old) }
    requires value { IsWhole (view value) }
    ensures sound { OnOk result (IsSound (row_view row.new)) }
    ensures grown { row.new.length ≤ row.old.length + means.room }
    ensures unchanged { OnErr result (row_view row.new ≡ row_view row.old) }
    ensures back { IfOk result (λ found. MatchOption found (IsOpenedFrom (row_held row.old) (row_held row.new)) (λ step. IsStep step (row_held row.old) (row_held row.new))) }
    ensures opened { OnErr result (IsOpenedFrom (row_held row.old) (row_held row.new)) }
    ensures put { IfOk result (λ found. (j : Json) → Says (tree_text (row_view row.old)) j
        → PutsIn (tree_text (row_view row.old)) j name.now (tree_text (view value.entry))
        (tree_text (row_view row.new)) (is_some found)) }
{
    if row.named {
        return Ok(Some(put_member(means, row, name, value)?));
    }
    put_element(means, row, name, value)
}
