//! The values of fields, and of values that an application fills.
ghost use Rattle.std.specs.Prelude.{◌≡◌, ◌≢◌, ◌==◌, List, ℕ, [], Some, length, option_copied, OnOk, OnErr, IfSome, IsSome, All};
ghost use Rattle.std.specs.BTreeMap.{insert_entry, is_at};
ghost use Rattle.std.specs.Map.{remove_entry, values_of};
ghost use Rattle.std.specs.Ordering.{nat_cmp};
ghost use Rattle.panels.specs.Characters.{AreCharacters};
ghost use Rattle.panels.specs.Values.{HasToGrow, value_of, with_values};

use crate::characters::Characters;
use std::alloc::{AllocError, Global};
use std::collections::BTreeMap;
use std::marker::Model;

/// What fields and values have, by their numbers over the whole text.
#[derive(Drop)]
pub struct Values {
    alloc: Global,
    values: BTreeMap<usize, Characters>,
}

impl Model for Values {
    ghost Value = { List (ℕ × List ℕ) };

    ghost view = { λ values. values.values.entries };
}

/// A copy with the same values. If memory is refused there is no copy, and the original stays as it is.
impl Clone for Values {
    ghost is_clone = { λ old new. new ≡ old };

    fn clone(&self) -> Result<Values, AllocError> {
        Ok(Values {
            alloc: self.alloc,
            values: self.values.clone()?,
        })
    }
}

impl Values {
    /// No values. This needs no memory.
    pub fn new(alloc: Global) -> Values
        ensures { result ≡ [] }
    {
        let values = BTreeMap::new(alloc);
        Values { alloc, values }
    }

    /// Whether no field has a value.
    pub fn is_empty(&self) -> bool
        ensures { result ≡ (length self.now == 0) }
    {
        self.values.len() == 0
    }

    /// The value of the field with a number, if any: storable bytes without nulls. To set it again changes nothing.
    pub fn get(&self, field: usize) -> Option<&[u8]>
        ensures value { option_copied result ≡ value_of self.now field }
        ensures characters { IfSome result (λ value. AreCharacters value.now) }
        ensures same { IfSome result (λ value. insert_entry nat_cmp self.now field value.now ≡ self.now) }
    {
        // For the contract: the map is in order.
        let _count = self.values.len();
        Some(self.values.get(&field)?.as_slice())
    }

    /// Replaces the value of a field that has one, and returns the former value.
    fn exchange(&mut self, field: usize, value: Characters) -> Characters
        requires { IsSome (value_of self.old field) }
        ensures old { value_of self.old field ≡ Some result }
        ensures new { self.new ≡ insert_entry nat_cmp self.old field value }
        ensures back { insert_entry nat_cmp self.old field result ≡ self.old }
    {
        // A key that is there takes no memory.
        match self.values.insert(field, value) {
            Ok(Some(former)) => former,
            Ok(None) | Err(_) => unreachable!(),
        }
    }

    /// Replaces the value of a field that has one by a copy of bytes.
    fn replace(&mut self, field: usize, bytes: &[u8]) -> Result<(), AllocError>
        requires set { IsSome (value_of self.old field) }
        requires characters { AreCharacters bytes.now }
        ensures entries { OnOk result (self.new ≡ insert_entry nat_cmp self.old field bytes.now) }
        ensures memory { OnErr result (HasToGrow (value_of self.old field) bytes.now) }
        ensures err { OnErr result (self.new ≡ self.old) }
    {
        let mut value = self.exchange(field, Characters::new(self.alloc));
        let replaced = value.replace(bytes);
        self.exchange(field, value);
        replaced
    }

    /// Sets the value of a field to a copy of bytes, each of which must be storable and not null. Memory is needed only
    /// if the field has no value or a shorter one; if it is refused nothing changes.
    pub fn set(&mut self, field: usize, bytes: &[u8]) -> Result<(), AllocError>
        requires { AreCharacters bytes.now }
        ensures entries { OnOk result (self.new ≡ insert_entry nat_cmp self.old field bytes.now) }
        ensures value { OnOk result (value_of self.new field ≡ Some bytes.now) }
        ensures others { OnOk result ((other : ℕ) → other ≢ field → value_of self.new other ≡ value_of self.old other) }
        ensures memory { OnErr result (HasToGrow (value_of self.old field) bytes.now) }
        ensures err { OnErr result (self.new ≡ self.old) }
    {
        if self.values.contains_key(&field) {
            return self.replace(field, bytes);
        }
        let value = Characters::copy(self.alloc, bytes)?;
        self.values.insert(field, value)?;
        Ok(())
    }

    /// Removes the value of a field, if it has one.
    pub fn remove(&mut self, field: usize)
        ensures { self.new ≡ remove_entry (is_at (nat_cmp field)) self.old }
    {
        self.values.remove(&field);
    }

    /// Sets each value of `others` here. If memory is refused, some may be set and others not.
    pub fn set_all(&mut self, others: &Values) -> Result<(), AllocError>
        ensures { OnOk result (self.new ≡ with_values self.old others.now) }
    {
        for (field, value) in others.values.iter() {
            self.set(*field, value.as_slice())?;
        }
        Ok(())
    }

    /// Law: each value is storable bytes without nulls.
    pub fn values_are_characters(&self)
        ensures { All AreCharacters (values_of self.now) }
    {
        for value in self.values.values() {
            // For the contract: its bytes are characters.
            let _bytes = value.as_slice();
        }
    }
}
