//! What is asked of the chains of all keys.
ghost use Rattle.std.specs.Prelude.{◌≡◌, ◌++◌, OnOk, find};
ghost use Rattle.std.specs.Option.{option_copied};
ghost use Rattle.chains.specs.Bounds.{is_in};
ghost use Rattle.chains.specs.KeyWrites.{is_of};
ghost use Rattle.chains.specs.Rows.{of_relation, shown_rows};
ghost use Rattle.chains.specs.Scans.{shown_value};

use crate::bound::Bound;
use crate::chain::Chain;
use crate::key_node::{KeyNode, KeyParts, from_bound, without_count};
use crate::scanning::{Found, add_rows_of_relation, add_values_of_relation};
use crate::shared_value::SharedValue;
use history::{Key, Version};
use std::alloc::{AllocError, Global};

/// The chain of a key among chains. They are few and lie together, so they are passed one after another.
fn chain_of(chains: &[Chain], key: Key) -> Option<&Chain>
    ensures { option_copied result ≡ find (is_of key) chains.now }
{
    let mut rest = chains;
    while let [chain, behind @ ..] = rest {
        if chain.key() == key {
            return Some(chain);
        }
        rest = behind;
    }
    None
}

/// The first of the chains that is within the bound.
fn first_within(chains: &[Chain], bound: Bound) -> Option<&Chain>
    ensures { option_copied result ≡ find (λ c. is_in bound c.key) chains.now }
{
    let mut rest = chains;
    while let [chain, behind @ ..] = rest {
        if bound.admits(chain.key()) {
            return Some(chain);
        }
        rest = behind;
    }
    None
}

impl KeyNode {
    /// The chain of a key.
    pub(crate) fn get(&self, key: Key) -> Option<&Chain>
        ensures { option_copied result ≡ find (is_of key) self.now.chunks }
    {
        match self.parts() {
            KeyParts::Chains(chains) => chain_of(chains, key),
            KeyParts::Nodes(nodes) => {
                let without = without_count(nodes, Bound::After(key));
                if without == 0 {
                    return None;
                }
                nodes[without - 1].get(key)
            }
        }
    }

    /// The chain of the least key within the bound.
    pub(crate) fn least(&self, bound: Bound) -> Option<&Chain>
        ensures { option_copied result ≡ find (λ c. is_in bound c.key) self.now.chunks }
    {
        let nodes = match self.parts() {
            KeyParts::Chains(chains) => return first_within(chains, bound),
            KeyParts::Nodes(nodes) => nodes,
        };
        let mut rest = from_bound(nodes, bound);
        while let [node, behind @ ..] = rest {
            if let Some(chain) = node.least(bound) {
                return Some(chain);
            }
            rest = behind;
        }
        None
    }

    /// Appends to what was found the records of a relation that have a value at a time, in rising order,
    /// with their values. It goes only where there may be some.
    pub(crate) fn add_values(
        &self,
        alloc: Global,
        found: &mut Found<SharedValue>,
        relation: u16,
        time: u64,
    ) -> Result<(), AllocError>
        ensures { OnOk result (found.new.items ≡ found.old.items ++ of_relation relation (shown_value time) self.now.chunks) }
    {
        let nodes = match self.parts() {
            KeyParts::Chains(chains) => {
                return add_values_of_relation(alloc, found, chains, relation, time);
            }
            KeyParts::Nodes(nodes) => nodes,
        };
        let mut rest = from_bound(
            nodes,
            Bound::From(Key {
                relation,
                record: 0,
            }),
        );
        while let [node, behind @ ..] = rest {
            if relation < node.first_key().relation {
                return Ok(());
            }
            node.add_values(alloc, found, relation, time)?;
            rest = behind;
        }
        Ok(())
    }

    /// Appends to what was found the rows of a relation's records from `a` to `b`, by record and then by
    /// time, each with its record. It goes only where there may be some.
    pub(crate) fn add_records(
        &self,
        alloc: Global,
        found: &mut Found<Version<SharedValue>>,
        relation: u16,
        a: u64,
        b: u64,
    ) -> Result<(), AllocError>
        ensures { OnOk result (found.new.items ≡ found.old.items ++ of_relation relation (shown_rows a b) self.now.chunks) }
    {
        let nodes = match self.parts() {
            KeyParts::Chains(chains) => {
                return add_rows_of_relation(alloc, found, chains, relation, a, b);
            }
            KeyParts::Nodes(nodes) => nodes,
        };
        let mut rest = from_bound(
            nodes,
            Bound::From(Key {
                relation,
                record: 0,
            }),
        );
        while let [node, behind @ ..] = rest {
            if relation < node.first_key().relation {
                return Ok(());
            }
            node.add_records(alloc, found, relation, a, b)?;
            rest = behind;
        }
        Ok(())
    }
}
