//! The numerals of texts, each at a place that stands for it.

ghost use Rattle.std.specs.Prelude.{◌≡◌, [], IfOk, IfSome, List, OnOk, Some, slice_get, ℕ};
ghost use Rattle.json.specs.Print.{IsNumber};
ghost use Rattle.json_number.specs.Numbers.{SameNumber};
ghost use Rattle.json_diff_text.specs.Numerals.{AreNumbers, Grows};
ghost use Rattle.json_diff_text.specs.Tables.{numerals_in, table};

use crate::key::key_of;
use json_number::same_number;
use serde_json::Value;
use std::alloc::{AllocError, Global};
use std::collections::BTreeMap;

/// A table of numerals. In a document the place of one stands for it.
#[derive(Drop)]
pub(crate) struct Numerals {
    texts: Vec<String>,
    /// By their keys, where numerals of one number share a place.
    places: Option<BTreeMap<u64, usize>>,
    /// Whether a numeral shares that of one that is written otherwise.
    is_mixed: bool,
}

impl Numerals {
    /// One in which numerals of one number share a place, wherever they stand.
    pub(crate) fn by_number(alloc: Global) -> Numerals
        ensures { table result ≡ [] }
    {
        Numerals {
            texts: Vec::new(alloc),
            places: Some(BTreeMap::new(alloc)),
            is_mixed: false,
        }
    }

    /// One in which each numeral has a place of its own, but for one of the same number as the value
    /// that it is compared with.
    pub(crate) fn by_value(alloc: Global) -> Numerals
        ensures { table result ≡ [] }
    {
        Numerals {
            texts: Vec::new(alloc),
            places: None,
            is_mixed: false,
        }
    }

    /// Whether the place of each numeral so far has it as it is written.
    pub(crate) fn are_as_written(&self) -> bool {
        !self.is_mixed
    }

    /// From here on each numeral gets a place of its own.
    pub(crate) fn set_apart(&mut self)
        ensures { table self.new ≡ table self.old }
    {
        self.places = None;
    }

    pub(crate) fn texts(&self) -> &Vec<String>
        ensures { numerals_in result.now.items ≡ table self.now }
    {
        &self.texts
    }

    /// The place of a numeral of the same number, where the key finds one or the other value has it.
    fn find(&self, key: u64, text: &str, other: Option<&Value>) -> Option<usize>
        ensures { IfSome result (λ n. (t : List ℕ)
            × (slice_get (table self.now) n ≡ Some t) × SameNumber t text.now) }
    {
        let place = match &self.places {
            Some(places) => *places.get(&key)?,
            None => place_in(other?)?,
        };
        if place < self.texts.len() && same_number(self.texts[place].as_str(), text) {
            Some(place)
        } else {
            None
        }
    }

    /// Has the key lead to a place, where numerals of one number share one.
    fn keep(&mut self, key: u64, place: usize) -> Result<(), AllocError>
        ensures { table self.new ≡ table self.old }
    {
        if let Some(places) = &mut self.places {
            places.insert(key, place)?;
        }
        Ok(())
    }

    /// The place of a numeral of the same number, or else a new one, of this numeral.
    pub(crate) fn code(
        &mut self,
        alloc: Global,
        text: &str,
        other: Option<&Value>,
    ) -> Result<usize, AllocError>
        requires numbers { AreNumbers (table self.old) }
        requires number { IsNumber text.now }
        ensures stands { IfOk result (λ n. (t : List ℕ)
            × (slice_get (table self.new) n ≡ Some t) × SameNumber t text.now) }
        ensures grows { OnOk result (Grows (table self.old) (table self.new)) }
        ensures numbers { OnOk result (AreNumbers (table self.new)) }
    {
        let key = key_of(text);
        if let Some(place) = self.find(key, text, other) {
            self.is_mixed |= self.texts[place].as_str() != text;
            return Ok(place);
        }
        let place = self.texts.len();
        self.texts.push(String::from_str(alloc, text)?)?;
        self.keep(key, place)?;
        Ok(place)
    }
}

/// The place that a number stands for.
fn place_in(value: &Value) -> Option<usize> {
    let place = value.as_u64()?;
    usize::try_from(place).ok()
}
