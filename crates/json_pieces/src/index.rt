//! Where each name of a row stands, kept while seams are put in and taken out.

ghost use Rattle.std.specs.Prelude.{◌≡◌, ◌<◌, ◌≤◌, ◌∷◌, ◌++◌, [], List, ℕ, length, true, IfSome, OnOk};
ghost use Rattle.std.specs.String.{string_bytes};
ghost use Rattle.std.specs.List.{insert, remove};
ghost use Rattle.json_pieces.specs.Marks.{Fits, IsKeyFor, names_of};
ghost use Rattle.json_text.specs.Rows.{Child, last_named};
ghost use Rattle.long_vec.specs.Items.{items_of};

use long_vec::LongVec;
use std::alloc::{AllocError, Global};
use std::collections::BTreeMap;

/// What is noted of a seam. Its number changes where one before it is taken out, its key doesn't.
#[derive(Clone, Copy)]
pub(crate) struct Mark {
    /// Rises from seam to seam.
    key: usize,
    /// The key of the last one before it of the same name.
    earlier: Option<usize>,
}

/// Where each name stands.
#[derive(Drop)]
pub(crate) struct NameIndex {
    /// The key of the last seam of each name; none where there was one that was taken out.
    latest: BTreeMap<String, Option<usize>>,
    marks: LongVec<Mark>,
    /// The key of the seam that comes next.
    next: usize,
    /// How many names have no key.
    lost: usize,
}

impl NameIndex {
    /// That of no seams.
    pub(crate) fn new(alloc: Global) -> NameIndex
        ensures { Fits result [] }
    {
        NameIndex {
            latest: BTreeMap::new(alloc),
            marks: LongVec::new(alloc),
            next: 0,
            lost: 0,
        }
    }

    /// The number of the last seam of this name.
    pub(crate) fn last_named(&self, name: &str) -> Option<usize>
        ensures { (cs : List Child) → Fits self.now (names_of cs) → result ≡ last_named name.now cs }
    {
        let key = (*self.latest.get(name)?)?;
        // There are no more marks than keys, so their number fits a `usize`.
        let _fits = self.next;
        Some(self.marks.partition_point(|mark| mark.key < key))
    }

    /// Learns the name of a seam that comes behind the last.
    pub(crate) fn learn(&mut self, name: String) -> Result<(), AllocError>
        ensures { OnOk result ((ns : List (List ℕ)) → Fits self.old ns
            → Fits self.new (ns ++ string_bytes name ∷ [])) }
    {
        let key = self.next;
        let Some(next) = key.checked_add(1) else {
            return Err(AllocError);
        };
        let Ok(known) = self.latest.insert(name, Some(key)) else {
            return Err(AllocError);
        };
        let earlier = match known {
            Some(earlier) => earlier,
            None => None,
        };
        self.marks.push(Mark { key, earlier })?;
        self.next = next;
        Ok(())
    }

    /// Forgets the seam of this number, if it is the last of this name. Else the index is spoilt. It
    /// asks for no memory.
    // The name stays, so that `recall` asks for none either. Where more names are without a key than
    // have one the index is spoilt too, and made anew: else it would grow with each name.
    pub(crate) fn forget(&mut self, name: &str, number: usize) -> bool
        requires { number < length (items_of self.old.marks) }
        ensures { result ≡ true → (ns : List (List ℕ)) → Fits self.old ns
            → Fits self.new (remove ns number) }
    {
        let mark = self.marks.remove(number);
        let Some(latest) = self.latest.get_mut(name) else {
            return false;
        };
        if *latest != Some(mark.key) {
            return false;
        }
        *latest = mark.earlier;
        self.lost = self
            .lost
            .saturating_add(usize::from(mark.earlier.is_none()));
        self.lost <= self.latest.len() / 2
    }

    /// A key for a mark that comes before that of this number, or behind the last, if one is left.
    fn key_for(&self, number: usize, count: usize) -> Option<usize>
        requires count { count ≡ length (items_of self.now.marks) }
        requires within { number ≤ count }
        ensures { IfSome result (IsKeyFor (items_of self.now.marks) self.now.next number) }
    {
        let key = match number.checked_sub(1) {
            Some(before) => self.marks.at(before).key.checked_add(1)?,
            None => 0,
        };
        let end = if number < count {
            self.marks.at(number).key
        } else {
            self.next
        };
        if key < end { Some(key) } else { None }
    }

    /// Learns that a seam of this name comes before that of this number, or behind the last of so many,
    /// if the name was known before and this is its last. Else the index is spoilt. It asks for no
    /// memory.
    pub(crate) fn recall(&mut self, name: &str, number: usize, count: usize) -> bool
        requires count { count ≡ length (items_of self.old.marks) }
        requires within { number ≤ count }
        ensures { result ≡ true → (ns : List (List ℕ)) → Fits self.old ns
            → Fits self.new (insert ns number name.now) }
    {
        let Some(key) = self.key_for(number, count) else {
            return false;
        };
        if !self.marks.has_any_room() {
            return false;
        }
        let Some(latest) = self.latest.get_mut(name) else {
            return false;
        };
        let earlier = *latest;
        if let Some(other) = earlier {
            if other >= key {
                return false;
            }
        }
        *latest = Some(key);
        self.lost = self.lost.saturating_sub(usize::from(earlier.is_none()));
        self.marks.put(number, Mark { key, earlier }, usize::MAX);
        true
    }
}
