//! The chains of all keys.
ghost use Rattle.std.specs.Prelude.{◌≡◌, ◌<◌, ◌^◌, ◌++◌, ◌∷◌, ◌↔◌, [], IfOk, IsTrue, OnOk, find, length, map};
ghost use Rattle.std.specs.List.Sorted.{IsStrictlySortedBy};
ghost use Rattle.std.specs.Option.{option_copied};
ghost use Rattle.history.specs.Key.{key_cmp};
ghost use Rattle.chains.specs.Bounds.{is_in};
ghost use Rattle.chains.specs.KeyWrites.{is_of, with_commit, latest, forgotten, IsOrdered};
ghost use Rattle.chains.specs.Rows.{of_relation, shown_rows};
ghost use Rattle.chains.specs.Scans.{shown_value};
ghost use Rattle.chains.specs.Shapes.{all_of};

use crate::bound::Bound;
use crate::chain::Chain;
use crate::key_growth::{add_alone, one};
use crate::key_node::KeyNode;
use crate::key_parts::{add_leaf, top_of};
use crate::scanning::Found;
use crate::share::Share;
use crate::shared_value::SharedValue;
use history::{Key, KeyWrite, Version};
use std::alloc::{AllocError, Global};
use std::marker::Model;

/// The chain of each key that was written, in the order of the keys.
#[derive(Drop)]
pub(crate) struct Keys {
    root: Option<KeyNode>,
}

impl Model for Keys {
    ghost use Rattle.std.specs.Prelude.{List};
    ghost use Rattle.chains.specs.KeyWrites.{KeyWrites};

    ghost Value = { List KeyWrites };

    ghost use Rattle.chains.specs.KeyNodes.{chains_below};

    ghost view = { λ k. chains_below k.root };
}

impl Share for Keys {
    fn share(&self) -> Result<Self, AllocError> {
        let root = match &self.root {
            None => None,
            Some(node) => Some(node.share()?),
        };
        Ok(Keys { root })
    }
}

impl Keys {
    /// Without any key.
    pub(crate) fn new() -> Self
        ensures { result ≡ [] }
    {
        Keys { root: None }
    }

    /// Whether there is no key.
    pub(crate) fn is_empty(&self) -> bool
        ensures { IsTrue result ↔ (length self.now ≡ 0) }
    {
        match &self.root {
            None => true,
            Some(node) => {
                let _ = node.first_key();
                false
            }
        }
    }

    /// The chain of a key.
    pub(crate) fn get(&self, key: Key) -> Option<&Chain>
        ensures { option_copied result ≡ find (is_of key) self.now }
    {
        match &self.root {
            None => None,
            Some(node) => node.get(key),
        }
    }

    /// The chain of the least key within the bound.
    pub(crate) fn least(&self, bound: Bound) -> Option<&Chain>
        ensures { option_copied result ≡ find (λ c. is_in bound c.key) self.now }
    {
        match &self.root {
            None => None,
            Some(node) => node.least(bound),
        }
    }

    /// Appends to what was found the records of a relation that have a value at a time, in rising order,
    /// with their values.
    pub(crate) fn add_values(
        &self,
        alloc: Global,
        found: &mut Found<SharedValue>,
        relation: u16,
        time: u64,
    ) -> Result<(), AllocError>
        ensures { OnOk result (found.new.items ≡ found.old.items ++ of_relation relation (shown_value time) self.now) }
    {
        match &self.root {
            None => Ok(()),
            Some(node) => node.add_values(alloc, found, relation, time),
        }
    }

    /// Appends to what was found the rows of a relation's records from `a` to `b`, by record and then by
    /// time, each with its record.
    pub(crate) fn add_records(
        &self,
        alloc: Global,
        found: &mut Found<Version<SharedValue>>,
        relation: u16,
        a: u64,
        b: u64,
    ) -> Result<(), AllocError>
        ensures { OnOk result (found.new.items ≡ found.old.items ++ of_relation relation (shown_rows a b) self.now) }
    {
        match &self.root {
            None => Ok(()),
            Some(node) => node.add_records(alloc, found, relation, a, b),
        }
    }

    fn of(alloc: Global, nodes: Vec<KeyNode>) -> Result<Self, AllocError>
        requires { IsOrdered (all_of nodes.items) }
        ensures { IfOk result (λ k. k ≡ all_of nodes.items) }
    {
        Ok(Keys {
            root: top_of(alloc, nodes)?,
        })
    }

    /// The chains of a commit's writes alone.
    fn of_writes(
        alloc: Global,
        time: u64,
        writes: &[KeyWrite<SharedValue>],
    ) -> Result<Self, AllocError>
        requires rising { IsStrictlySortedBy key_cmp (map (λ w. w.key) writes.now) }
        requires positive { 0 < time }
        requires in_range { time < 2 ^ 63 }
        ensures { IfOk result (λ k. k ≡ with_commit [] time writes.now) }
    {
        let mut nodes = Vec::with_capacity(alloc, 1)?;
        add_alone(alloc, &mut nodes, time, writes)?;
        Keys::of(alloc, nodes)
    }

    /// The same with the writes of a commit: what no write is of is shared.
    pub(crate) fn with_writes(
        &self,
        alloc: Global,
        time: u64,
        writes: &[KeyWrite<SharedValue>],
    ) -> Result<Self, AllocError>
        requires ordered { IsOrdered self.now }
        requires rising { IsStrictlySortedBy key_cmp (map (λ w. w.key) writes.now) }
        requires later { latest self.now < time }
        requires in_range { time < 2 ^ 63 }
        ensures { IfOk result (λ k. k ≡ with_commit self.now time writes.now) }
    {
        let Some(node) = &self.root else {
            return Keys::of_writes(alloc, time, writes);
        };
        let mut nodes = Vec::with_capacity(alloc, 1)?;
        node.add_written(alloc, &mut nodes, time, writes)?;
        Keys::of(alloc, nodes)
    }

    /// The same with the writes of a commit: what nothing else holds is changed in its place.
    pub(crate) fn into_writes(
        self,
        alloc: Global,
        time: u64,
        writes: &[KeyWrite<SharedValue>],
    ) -> Result<Self, AllocError>
        requires ordered { IsOrdered self }
        requires rising { IsStrictlySortedBy key_cmp (map (λ w. w.key) writes.now) }
        requires later { latest self < time }
        requires in_range { time < 2 ^ 63 }
        ensures { IfOk result (λ k. k ≡ with_commit self time writes.now) }
    {
        let Some(node) = self.root else {
            return Keys::of_writes(alloc, time, writes);
        };
        let mut nodes = Vec::with_capacity(alloc, 1)?;
        node.into_written(alloc, &mut nodes, time, writes)?;
        Keys::of(alloc, nodes)
    }

    /// The same with a chain after all others.
    pub(crate) fn with_last(self, alloc: Global, chain: Chain) -> Result<Self, AllocError>
        requires { IsOrdered (self ++ chain ∷ []) }
        ensures { IfOk result (λ k. k ≡ self ++ chain ∷ []) }
    {
        let mut nodes = Vec::with_capacity(alloc, 1)?;
        let Some(node) = self.root else {
            add_leaf(alloc, &mut nodes, one(alloc, chain)?)?;
            return Keys::of(alloc, nodes);
        };
        node.into_longer(alloc, &mut nodes, chain)?;
        Keys::of(alloc, nodes)
    }

    /// The same without what says nothing of times from the mark on.
    pub(crate) fn forget(&self, alloc: Global, mark: u64) -> Result<Self, AllocError>
        requires { IsOrdered self.now }
        ensures { IfOk result (λ k. k ≡ forgotten mark self.now) }
    {
        let Some(node) = &self.root else {
            return Ok(Keys::new());
        };
        let mut nodes = Vec::with_capacity(alloc, 1)?;
        node.add_kept(alloc, &mut nodes, mark)?;
        Keys::of(alloc, nodes)
    }
}
