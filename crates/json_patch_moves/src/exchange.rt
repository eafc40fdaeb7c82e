//! How two operations that follow each other change places, so that both do what they did.

use crate::paths::item_path;
use json_patch::jsonptr::PointerBuf;
use json_patch::jsonptr::index::Index;
use std::alloc::{AllocError, Global};

/// What an operation does to the elements of the array in which it is made.
#[derive(Clone, Copy)]
pub(crate) enum Effect {
    /// It inserts one: the index of those from there on goes up by one.
    Inserts,
    /// It takes one out: the index of those after it goes down by one.
    Takes,
    /// It replaces one: each stays where it is.
    Stays,
}

/// Where an operation is made.
#[derive(Drop)]
pub(crate) struct Site {
    /// The path of the array, where it adds, removes or replaces an element; else its own path.
    pub(crate) way: PointerBuf,
    /// The index of that element.
    pub(crate) item: Option<usize>,
    /// What it does to the array.
    pub(crate) effect: Effect,
}

impl Site {
    /// That of a member.
    pub(crate) fn of_member(path: PointerBuf) -> Site {
        Site {
            way: path,
            item: None,
            effect: Effect::Stays,
        }
    }

    /// The path.
    pub(crate) fn path(&self, alloc: Global) -> Result<PointerBuf, AllocError> {
        match self.item {
            Some(place) => item_path(alloc, &self.way, place),
            None => self.way.clone(alloc),
        }
    }

    /// The same site of another effect.
    pub(crate) fn with_effect(&self, alloc: Global, effect: Effect) -> Result<Site, AllocError> {
        let way = self.way.clone(alloc)?;
        let item = self.item;
        Ok(Site { way, item, effect })
    }
}

/// What becomes of a site's `way`.
#[derive(Drop)]
enum Turn {
    /// It leads through what the other operation adds, removes or replaces.
    Barred,
    Same,
    Other(PointerBuf),
}

/// Changes the sites of two operations, the second made after the first, to those that they have if
/// the second is made first. Where one is about what the other adds, removes or replaces, it returns
/// `false`, and both stay.
pub(crate) fn exchange(
    alloc: Global,
    first: &mut Site,
    second: &mut Site,
) -> Result<bool, AllocError> {
    if let (Some(place), Some(index)) = (first.item, second.item) {
        if first.way == second.way {
            return Ok(exchange_items(first, second, place, index));
        }
    }
    exchange_ways(alloc, first, second)
}

/// The same, of two elements of one array.
fn exchange_items(first: &mut Site, second: &mut Site, place: usize, index: usize) -> bool {
    let Some(before) = index_before(first.effect, place, second.effect, index) else {
        return false;
    };
    first.item = Some(place_after(place, second.effect, index));
    second.item = Some(before);
    true
}

/// The same, where they aren't about elements of one array: at most, the path of one leads through
/// the other's array.
fn exchange_ways(alloc: Global, first: &mut Site, second: &mut Site) -> Result<bool, AllocError> {
    let before = way_before(alloc, first, &second.way)?;
    let after = way_after(alloc, second, &first.way)?;
    if matches!(&before, Turn::Barred) || matches!(&after, Turn::Barred) {
        return Ok(false);
    }
    if let Turn::Other(way) = before {
        second.way = way;
    }
    if let Turn::Other(way) = after {
        first.way = way;
    }
    Ok(true)
}

/// The way of a later operation, before the first is made.
fn way_before(alloc: Global, first: &Site, way: &PointerBuf) -> Result<Turn, AllocError> {
    let Some(place) = first.item else {
        return Ok(barred_below(&first.way, way));
    };
    match item_on(&first.way, way) {
        Some(index) => {
            let before = index_before(first.effect, place, Effect::Stays, index);
            turned(alloc, way, &first.way, index, before)
        }
        None => Ok(Turn::Same),
    }
}

/// The way of an earlier operation, after the second is made.
fn way_after(alloc: Global, second: &Site, way: &PointerBuf) -> Result<Turn, AllocError> {
    let Some(index) = second.item else {
        return Ok(barred_below(&second.way, way));
    };
    match item_on(&second.way, way) {
        Some(place) if place == index && !matches!(&second.effect, Effect::Inserts) => {
            Ok(Turn::Barred)
        }
        Some(place) => {
            let after = place_after(place, second.effect, index);
            turned(alloc, way, &second.way, place, Some(after))
        }
        None => Ok(Turn::Same),
    }
}

/// What stands at a path, or below it, is barred by what is done there.
fn barred_below(path: &PointerBuf, way: &PointerBuf) -> Turn {
    if way.as_pointer().starts_with(path.as_pointer()) {
        Turn::Barred
    } else {
        Turn::Same
    }
}

/// The index of the array's element through which a way leads, if it leads through one.
fn item_on(list: &PointerBuf, way: &PointerBuf) -> Option<usize> {
    let rest = way.as_pointer().strip_prefix(list.as_pointer())?;
    let token = rest.tokens().next()?;
    match token.to_index() {
        Ok(Index::Num(place)) => Some(place),
        Ok(Index::Next) => None,
        Err(_) => None,
    }
}

/// The way through the element at `other` of the array, in place of the one at `place`.
fn turned(
    alloc: Global,
    way: &PointerBuf,
    list: &PointerBuf,
    place: usize,
    other: Option<usize>,
) -> Result<Turn, AllocError> {
    let Some(other) = other else {
        return Ok(Turn::Barred);
    };
    if other == place {
        return Ok(Turn::Same);
    }
    let mut turned = item_path(alloc, list, other)?;
    let Some(rest) = way.as_pointer().strip_prefix(list.as_pointer()) else {
        return Ok(Turn::Barred);
    };
    for (number, token) in rest.tokens().enumerate() {
        if number > 0 {
            let name = token.decoded(alloc)?;
            turned.push_back(alloc, name.as_str())?;
        }
    }
    Ok(Turn::Other(turned))
}

/// The second operation's index if it is made before the first, which is made at `place`; `None`
/// where it is about what the first leaves there.
fn index_before(first: Effect, place: usize, second: Effect, index: usize) -> Option<usize> {
    // An element that is inserted at an index goes in front of what stands there.
    let is_apart = index != place || matches!(&second, Effect::Inserts);
    match first {
        Effect::Takes if index > place || !is_apart => index.checked_add(1),
        Effect::Takes => Some(index),
        _ if !is_apart => None,
        Effect::Inserts if index > place => index.checked_sub(1),
        _ => Some(index),
    }
}

/// The first operation's index if it is made after the second, which had `index` when it came after
/// the first.
fn place_after(place: usize, second: Effect, index: usize) -> usize {
    match second {
        Effect::Inserts if index <= place => place.saturating_add(1),
        Effect::Takes if index < place => place.saturating_sub(1),
        _ => place,
    }
}
