//! The seams of a row, and where each name stands among them, once that has been asked often.

ghost use Rattle.std.specs.Prelude.{◌≡◌, ◌≢◌, ◌+◌, ◌<◌, ◌≤◌, ◌^◌, ◌∷◌, ◌++◌, [], List, ℕ, length, IfOk, OnOk, slice_index_or, IfSome, None, true};
ghost use Rattle.std.specs.Bool.{Decides};
ghost use Rattle.std.specs.String.{string_bytes};
ghost use Rattle.std.specs.List.{insert, remove};
ghost use Rattle.json.specs.Json.{string};
ghost use Rattle.json_pieces.specs.Exchanges.{HasTrail, HasWhitespace};
ghost use Rattle.json_pieces.specs.Names.{Agrees, Agrees-prop, AreNames, IsIndexOf};
ghost use Rattle.json_pieces.specs.declared.seams.Seam.{Seam};
ghost use Rattle.json_text.specs.Listing.{IsTextOf};
ghost use Rattle.json_text.specs.Rows.{Child, last_named};
ghost use Rattle.long_vec.specs.Blocks.{items_in};
ghost use Rattle.long_vec.specs.Items.{capacity_of, items_of};
ghost use Rattle.long_vec.specs.Walks.{left};

use crate::index::NameIndex;
use crate::text::Text;
use json_text::{is_name_text, string_of};
use long_vec::{Items, LongVec};
use std::alloc::{AllocError, Global};
use std::mem;

/// So many members are looked for by comparing names before an index is built.
const QUESTIONS: usize = 16;

/// Of fewer members none is built.
const MANY: usize = 32;

/// What stands around a value in an object or an array.
#[derive(Drop)]
pub(crate) struct Seam<'a> {
    /// The whitespace behind the bracket or the comma before it.
    pub whitespace: Text<'a>,
    /// A member's name as it is written; of an element nothing.
    pub name: Text<'a>,
    /// A member's colon, with the whitespace around it; of an element nothing.
    pub colons: Text<'a>,
    /// The whitespace behind the value.
    pub trail: Text<'a>,
}

impl<'a> Seam<'a> {
    /// One of nothing, for a while in the place of another.
    fn empty() -> Seam<'a> {
        Seam {
            whitespace: Text::Empty,
            name: Text::Empty,
            colons: Text::Empty,
            trail: Text::Empty,
        }
    }
}

/// The seams of a row, and where each name stands, once that has been asked often.
#[derive(Drop)]
pub(crate) struct Seams<'a> {
    pub all: LongVec<Seam<'a>>,
    count: usize,
    asked: usize,
    index: Option<NameIndex>,
    ghost counted: { length (items_of all) ≡ count },
    ghost agrees: { Agrees (items_of all) index } by { Agrees-prop (items_of all) index },
}

/// The number of the last of these seams of this name, found by comparing names.
fn last_in(seams: &[Seam<'_>], name: &str) -> Option<usize>
    ensures within { IfSome result (λ n. n < length seams.now) }
    ensures number { (cs : List Child) → AreNames seams.now cs → result ≡ last_named name.now cs }
{
    let mut i = seams.len();
    while i > 0 {
        let seam = &seams[i - 1];
        if is_name_text(seam.name.as_str(), name) {
            return Some(i - 1);
        }
        i -= 1;
    }
    None
}

/// The same of the seams in blocks, of which there are so many.
fn scanned(blocks: &[Vec<Seam<'_>>], count: usize, name: &str) -> Option<usize>
    requires { length (items_in blocks.now) ≡ count }
    ensures { (cs : List Child) → AreNames (items_in blocks.now) cs → result ≡ last_named name.now cs }
{
    let mut before = count;
    let mut i = blocks.len();
    while i > 0 {
        let block = &blocks[i - 1];
        before -= block.len();
        if let Some(number) = last_in(block.as_slice(), name) {
            return Some(before + number);
        }
        i -= 1;
    }
    None
}

/// The name that this text says.
fn name_in(alloc: Global, text: &str) -> Result<String, AllocError>
    ensures { IfOk result (λ name. (l : List ℕ) → IsTextOf text.now (string l) → l ≡ string_bytes name) }
{
    match string_of(alloc, text)? {
        Some(name) => Ok(name),
        None => Err(AllocError),
    }
}

/// Learns the name of a seam that comes behind the last.
fn learn(alloc: Global, index: &mut NameIndex, seam: &Seam<'_>) -> Result<(), AllocError>
    ensures { OnOk result ((ss : List Seam) → IsIndexOf ss index.old
        → IsIndexOf (ss ++ seam.now ∷ []) index.new) }
{
    let name = name_in(alloc, seam.name.as_str())?;
    index.learn(name)
}

/// The index of these seams.
// Not inlined: each level of an edit would else hold its room.
#[inline(never)]
fn indexed(alloc: Global, mut seams: Items<'_, Seam<'_>>) -> Result<NameIndex, AllocError>
    ensures { IfOk result (λ index. IsIndexOf (left seams.entry) index) }
{
    let mut index = NameIndex::new(alloc);
    while let Some(seam) = seams.next() {
        learn(alloc, &mut index, seam)?;
    }
    Ok(index)
}

/// The index, if there is one, once this seam is put in before that of this number. Behind the last it
/// learns its name; before another, where only elements are put in, it is dropped.
fn index_with(
    alloc: Global,
    index: Option<NameIndex>,
    count: usize,
    seam: &Seam<'_>,
    number: usize,
) -> Result<Option<NameIndex>, AllocError>
    ensures { IfOk result (λ new. (ss : List Seam) → length ss ≡ count → number ≤ count
        → Agrees ss index → Agrees (insert ss number seam.now) new) }
{
    if number < count {
        return Ok(None);
    }
    match index {
        Some(mut index) => {
            learn(alloc, &mut index, seam)?;
            Ok(Some(index))
        }
        None => Ok(None),
    }
}

/// The index, if there is one, once the last seam of this name, which has this number, is taken out. Of
/// another seam, or where the name isn't told, it is dropped.
fn index_without(index: Option<NameIndex>, name: Option<&str>, number: usize) -> Option<NameIndex>
    requires { IfSome index (λ x. number < length (items_of x.marks)) }
    ensures { (ss : List Seam) → Agrees ss index → Agrees (remove ss number) result }
{
    let mut index = index?;
    if index.forget(name?, number) {
        Some(index)
    } else {
        None
    }
}

/// The name that this text says, if it has no escape.
fn plain_name(text: &str) -> Option<&str>
    ensures { IfSome result (λ name. (l : List ℕ) → IsTextOf text.now (string l) → l ≡ name.now) }
{
    let name = text.get(1..text.len().checked_sub(1)?)?;
    if is_name_text(text, name) {
        Some(name)
    } else {
        None
    }
}

/// The index, if there is one, once this seam is put in before that of this number, or behind the last
/// of so many. Where its name wasn't known, or isn't the last one, it is dropped.
fn index_again(
    index: Option<NameIndex>,
    seam: &Seam<'_>,
    number: usize,
    count: usize,
) -> Option<NameIndex>
    requires count { IfSome index (λ x. count ≡ length (items_of x.marks)) }
    requires within { number ≤ count }
    ensures { (ss : List Seam) → number ≤ length ss → Agrees ss index → Agrees (insert ss number seam.now) result }
{
    let mut index = index?;
    let name = plain_name(seam.name.as_str())?;
    if index.recall(name, number, count) {
        Some(index)
    } else {
        None
    }
}

/// Drops the index, if there is one: most rows have none, and to look is sooner done than to assign.
#[inline(always)]
fn let_go(index: &mut Option<NameIndex>)
    ensures { index.new ≡ None }
{
    if index.is_some() {
        *index = None;
    }
}

impl<'a> Seams<'a> {
    /// No seams.
    pub(crate) fn new(alloc: Global) -> Seams<'a>
        ensures { items_of result.all ≡ [] }
    {
        Seams {
            all: LongVec::new(alloc),
            count: 0,
            asked: 0,
            index: None,
        }
    }

    /// How many there are.
    pub(crate) fn count(&self) -> usize
        ensures { result ≡ length (items_of self.now.all) }
    {
        self.count
    }

    /// Puts in a seam behind the last, before a name is asked for.
    #[inline(always)]
    pub(crate) fn push(&mut self, seam: Seam<'a>) -> Result<(), AllocError>
        ensures { OnOk result (items_of self.new.all ≡ items_of self.old.all ++ seam.entry ∷ []) }
    {
        let Some(count) = self.count.checked_add(1) else {
            return Err(AllocError);
        };
        let_go(&mut self.index);
        match self.all.push(seam) {
            Ok(_) => {}
            Err(_) => return Err(AllocError),
        }
        self.count = count;
        Ok(())
    }

    /// The number of the last seam of this name.
    pub(crate) fn last_named(&self, name: &str) -> Option<usize>
        ensures { (cs : List Child) → AreNames (items_of self.now.all) cs → result ≡ last_named name.now cs }
    {
        match &self.index {
            Some(index) => index.last_named(name),
            None => scanned(self.all.blocks(), self.count, name),
        }
    }

    /// Counts a question for a name; after some, of many seams, the index is built.
    pub(crate) fn ask(&mut self, alloc: Global) -> Result<(), AllocError>
        ensures { self.new.all ≡ self.old.all }
    {
        if self.index.is_some() || self.count < MANY {
            return Ok(());
        }
        if self.asked < QUESTIONS {
            self.asked += 1;
            return Ok(());
        }
        self.index = Some(indexed(alloc, self.all.items())?);
        Ok(())
    }

    /// Makes room for a seam that comes before that of this number, or behind the last, and the index
    /// that there is with it.
    pub(crate) fn ready(
        &mut self,
        number: usize,
        seam: &Seam<'_>,
    ) -> Result<Option<NameIndex>, AllocError>
        requires { number ≤ length (items_of self.old.all) }
        ensures items { items_of self.new.all ≡ items_of self.old.all }
        ensures capacity { capacity_of self.old.all ≤ capacity_of self.new.all }
        ensures room { OnOk result (length (items_of self.new.all) < capacity_of self.new.all) }
        ensures fits { OnOk result (length (items_of self.new.all) + 1 < 2 ^ 64) }
        ensures index { IfOk result (λ index. Agrees (insert (items_of self.old.all) number seam.now) index) }
    {
        if self.count == usize::MAX {
            return Err(AllocError);
        }
        self.all.make_room(number)?;
        let alloc = *self.all.allocator();
        let index = mem::replace(&mut self.index, None);
        index_with(alloc, index, self.count, seam, number)
    }

    /// Puts in a seam before that of this number, or behind the last, where there is room. Their index
    /// is this.
    pub(crate) fn put(&mut self, number: usize, seam: Seam<'a>, index: Option<NameIndex>)
        requires within { number ≤ length (items_of self.old.all) }
        requires room { length (items_of self.old.all) < capacity_of self.old.all }
        requires fits { length (items_of self.old.all) + 1 < 2 ^ 64 }
        requires index { Agrees (insert (items_of self.old.all) number seam) index }
        ensures items { items_of self.new.all ≡ insert (items_of self.old.all) number seam.entry }
        ensures room { capacity_of self.new.all ≡ capacity_of self.old.all }
    {
        self.all.put(number, seam, usize::MAX);
        self.count += 1;
        self.index = index;
    }

    /// Takes out the seam of this number, the last of this name, or an element's.
    pub(crate) fn remove(&mut self, number: usize, name: &str) -> Seam<'a>
        requires { number < length (items_of self.old.all) }
        ensures value { result ≡ slice_index_or (items_of self.old.all) number result }
        ensures items { items_of self.new.all ≡ remove (items_of self.old.all) number }
        ensures len { length (items_of self.new.all) + 1 ≡ length (items_of self.old.all) }
        ensures capacity { capacity_of self.new.all ≡ capacity_of self.old.all }
        ensures room { length (items_of self.new.all) < capacity_of self.new.all }
        ensures fits { length (items_of self.new.all) + 1 < 2 ^ 64 }
    {
        let index = mem::replace(&mut self.index, None);
        self.index = index_without(index, Some(name), number);
        self.count -= 1;
        self.all.remove(number)
    }

    /// Takes out the seam of this number, whatever its name. It asks for no memory.
    pub(crate) fn take(&mut self, number: usize) -> Seam<'a>
        requires { number < length (items_of self.old.all) }
        ensures value { result ≡ slice_index_or (items_of self.old.all) number result }
        ensures items { items_of self.new.all ≡ remove (items_of self.old.all) number }
        ensures len { length (items_of self.new.all) + 1 ≡ length (items_of self.old.all) }
        ensures room { capacity_of self.new.all ≡ capacity_of self.old.all }
    {
        let index = mem::replace(&mut self.index, None);
        self.count -= 1;
        let seam = self.all.remove(number);
        self.index = index_without(index, plain_name(seam.name.as_str()), number);
        seam
    }

    /// Puts a seam in again before that of this number, or behind the last, where there is room. It asks
    /// for no memory.
    pub(crate) fn put_back(&mut self, number: usize, seam: Seam<'a>)
        requires within { number ≤ length (items_of self.old.all) }
        requires room { length (items_of self.old.all) < capacity_of self.old.all }
        requires fits { length (items_of self.old.all) + 1 < 2 ^ 64 }
        ensures items { items_of self.new.all ≡ insert (items_of self.old.all) number seam.entry }
        ensures room { capacity_of self.new.all ≡ capacity_of self.old.all }
    {
        let index = mem::replace(&mut self.index, None);
        let index = index_again(index, &seam, number, self.count);
        self.put(number, seam, index);
    }

    /// Exchanges the whitespace before the value of this number for this one.
    pub(crate) fn swap_whitespace(&mut self, number: usize, whitespace: &mut Text<'a>)
        requires { number < length (items_of self.old.all) }
        ensures whitespace { HasWhitespace (items_of self.old.all) number whitespace.old whitespace.new (items_of self.new.all) }
        ensures room { capacity_of self.new.all ≡ capacity_of self.old.all }
    {
        let mut seam = self.all.exchange(number, Seam::empty());
        mem::swap(&mut seam.whitespace, whitespace);
        self.all.exchange(number, seam);
    }

    /// Exchanges the whitespace behind the value of this number for this one.
    pub(crate) fn swap_trail(&mut self, number: usize, trail: &mut Text<'a>)
        requires { number < length (items_of self.old.all) }
        ensures trail { HasTrail (items_of self.old.all) number trail.old trail.new (items_of self.new.all) }
        ensures room { capacity_of self.new.all ≡ capacity_of self.old.all }
    {
        let mut seam = self.all.exchange(number, Seam::empty());
        mem::swap(&mut seam.trail, trail);
        self.all.exchange(number, seam);
    }
}
