//! The chains of all keys with the writes of a commit, and without what nothing asks for any more.
ghost use Rattle.std.specs.Prelude.{◌≡◌, ◌<◌, ◌≤◌, ◌^◌, ◌∷◌, ◌++◌, [], IfOk, IsTrue, OnOk, length, map};
ghost use Rattle.std.specs.List.Sorted.{IsStrictlySortedBy};
ghost use Rattle.history.specs.Key.{key_cmp};
ghost use Rattle.chains.specs.Committing as specs;
ghost use Rattle.chains.specs.KeyWrites.{with_commit, latest, forgotten, IsOrdered};
ghost use Rattle.chains.specs.Shapes.{all_of};

use crate::chain::Chain;
use crate::committing::{add_new, add_with_writes, into_with_writes, parted};
use crate::key_node::{KeyNode, KeyParts, OwnParts};
use crate::key_parts::{FORK_WIDTH, LEAF_WIDTH, add_fork, add_forks, add_leaf, add_leaves};
use crate::share::Share;
use crate::shared_value::SharedValue;
use history::KeyWrite;
use std::alloc::{AllocError, Global};

/// The writes of keys before the first of some nodes, and the others; all and none where there is no node.
fn before_first<'a>(
    writes: &'a [KeyWrite<SharedValue>],
    nodes: &[KeyNode],
) -> (&'a [KeyWrite<SharedValue>], &'a [KeyWrite<SharedValue>])
    requires { IsStrictlySortedBy key_cmp (map (λ w. w.key) writes.now) }
    ensures { specs.ArePartedAt (all_of nodes.now) writes.now result.0.now result.1.now }
{
    match nodes {
        [] => writes.split_at(writes.len()),
        [next, ..] => parted(writes, next.first_key()),
    }
}

/// Appends to other nodes those of a commit's writes alone.
pub(crate) fn add_alone(
    alloc: Global,
    found: &mut Vec<KeyNode>,
    time: u64,
    writes: &[KeyWrite<SharedValue>],
) -> Result<(), AllocError>
    requires rising { IsStrictlySortedBy key_cmp (map (λ w. w.key) writes.now) }
    requires positive { 0 < time }
    requires in_range { time < 2 ^ 63 }
    ensures { OnOk result (all_of found.new.items ≡ all_of found.old.items ++ with_commit [] time writes.now) }
{
    let mut chains = Vec::with_capacity(alloc, writes.len())?;
    add_new(alloc, &mut chains, time, writes)?;
    add_leaves(alloc, found, chains)
}

/// How many of these chains are at hand. It looks at each in turn, with nothing to be done between, so that
/// a processor fetches many at once; who then shares them all has them near.
fn at_hand_count(chains: &[Chain]) -> usize
    ensures { result ≤ length chains.now }
{
    let mut count = 0;
    for chain in chains {
        if chain.is_at_hand() {
            count += 1;
        }
    }
    count
}

/// Whether all writes of the chains say something of times from the mark on.
fn are_kept(chains: &[Chain], mark: u64) -> bool
    ensures { IsTrue result → forgotten mark chains.now ≡ chains.now }
{
    let mut rest = chains;
    while let [chain, behind @ ..] = rest {
        if !chain.is_kept(mark) {
            return false;
        }
        rest = behind;
    }
    true
}

/// The chains without what says nothing of times from the mark on.
fn kept_of(alloc: Global, chains: &[Chain], mark: u64) -> Result<Vec<Chain>, AllocError>
    ensures { IfOk result (λ cs. cs.items ≡ forgotten mark chains.now) }
{
    let mut found = Vec::with_capacity(alloc, chains.len())?;
    let mut rest = chains;
    while let [chain, behind @ ..] = rest {
        if let Some(kept) = chain.kept(alloc, mark)? {
            found.push(kept)?;
        }
        rest = behind;
    }
    Ok(found)
}

/// A list of one chain.
pub(crate) fn one(alloc: Global, chain: Chain) -> Result<Vec<Chain>, AllocError>
    ensures { IfOk result (λ cs. cs.items ≡ chain ∷ []) }
{
    let mut chains = Vec::with_capacity(alloc, LEAF_WIDTH)?;
    chains.push(chain)?;
    Ok(chains)
}

/// Appends to other nodes leaves of chains and of one after them: a leaf that is full stays as it is.
fn add_longer_leaf(
    alloc: Global,
    found: &mut Vec<KeyNode>,
    chains: Vec<Chain>,
    chain: Chain,
) -> Result<(), AllocError>
    requires { IsOrdered (chains.items ++ chain ∷ []) }
    ensures { OnOk result (all_of found.new.items ≡ all_of found.old.items ++ (chains.items ++ chain ∷ [])) }
{
    let mut chains = chains;
    if chains.len() < LEAF_WIDTH {
        chains.push(chain)?;
        return add_leaf(alloc, found, chains);
    }
    add_leaf(alloc, found, chains)?;
    add_leaf(alloc, found, one(alloc, chain)?)
}

/// Appends to other nodes forks of nodes: the last one has a fork of its own where they are too many.
fn add_longer_fork(
    alloc: Global,
    found: &mut Vec<KeyNode>,
    nodes: Vec<KeyNode>,
) -> Result<(), AllocError>
    requires { IsOrdered (all_of nodes.items) }
    ensures { OnOk result (all_of found.new.items ≡ all_of found.old.items ++ all_of nodes.items) }
{
    let mut nodes = nodes;
    if nodes.len() <= FORK_WIDTH {
        return add_fork(alloc, found, nodes);
    }
    let Some(node) = nodes.pop() else {
        return Ok(());
    };
    let mut last = Vec::with_capacity(alloc, FORK_WIDTH)?;
    last.push(node)?;
    add_fork(alloc, found, nodes)?;
    add_fork(alloc, found, last)
}

impl KeyNode {
    /// Appends to other nodes those of this one with the writes of a commit: what no write is of is shared.
    pub(crate) fn add_written(
        &self,
        alloc: Global,
        found: &mut Vec<KeyNode>,
        time: u64,
        writes: &[KeyWrite<SharedValue>],
    ) -> Result<(), AllocError>
        requires rising { IsStrictlySortedBy key_cmp (map (λ w. w.key) writes.now) }
        requires later { latest self.now.chunks < time }
        requires in_range { time < 2 ^ 63 }
        ensures { OnOk result (all_of found.new.items ≡ all_of found.old.items ++ with_commit self.now.chunks time writes.now) }
    {
        if writes.is_empty() {
            found.push(self.share()?)?;
            return Ok(());
        }
        let nodes = match self.parts() {
            KeyParts::Chains(chains) => {
                let room = chains.len().max(at_hand_count(chains));
                let mut all = Vec::with_capacity(alloc, room.saturating_add(writes.len()))?;
                add_with_writes(alloc, &mut all, time, chains, writes)?;
                return add_leaves(alloc, found, all);
            }
            KeyParts::Nodes(nodes) => nodes,
        };
        let mut all = Vec::with_capacity(alloc, nodes.len().saturating_add(1))?;
        let mut left = writes;
        let mut rest = nodes;
        while let [node, behind @ ..] = rest {
            let (own, later) = before_first(left, behind);
            node.add_written(alloc, &mut all, time, own)?;
            left = later;
            rest = behind;
        }
        add_forks(alloc, found, all)
    }

    /// The same of a node that is given away: what no other holds is changed in its place.
    pub(crate) fn into_written(
        self,
        alloc: Global,
        found: &mut Vec<KeyNode>,
        time: u64,
        writes: &[KeyWrite<SharedValue>],
    ) -> Result<(), AllocError>
        requires rising { IsStrictlySortedBy key_cmp (map (λ w. w.key) writes.now) }
        requires later { latest self.chunks < time }
        requires in_range { time < 2 ^ 63 }
        ensures { OnOk result (all_of found.new.items ≡ all_of found.old.items ++ with_commit self.chunks time writes.now) }
    {
        if writes.is_empty() {
            found.push(self)?;
            return Ok(());
        }
        let nodes = match self.into_parts() {
            Err(node) => return node.add_written(alloc, found, time, writes),
            Ok(OwnParts::Chains(chains)) => {
                let all = into_with_writes(alloc, time, chains, writes)?;
                return add_leaves(alloc, found, all);
            }
            Ok(OwnParts::Nodes(nodes)) => nodes,
        };
        let mut all = Vec::with_capacity(alloc, nodes.len().saturating_add(1))?;
        let mut left = writes;
        let mut last: Option<KeyNode> = None;
        for node in nodes {
            if let Some(before) = last {
                let (own, later) = parted(left, node.first_key());
                before.into_written(alloc, &mut all, time, own)?;
                left = later;
            }
            last = Some(node);
        }
        if let Some(node) = last {
            node.into_written(alloc, &mut all, time, left)?;
        }
        add_forks(alloc, found, all)
    }

    /// Appends to other nodes those of this one with a chain after its own. Where something else holds a
    /// node on the way to the last chain, its other parts are shared.
    pub(crate) fn into_longer(
        self,
        alloc: Global,
        found: &mut Vec<KeyNode>,
        chain: Chain,
    ) -> Result<(), AllocError>
        requires { IsOrdered (self.chunks ++ chain ∷ []) }
        ensures { OnOk result (all_of found.new.items ≡ all_of found.old.items ++ (self.chunks ++ chain ∷ [])) }
    {
        let parts = self.into_own_parts(alloc)?;
        match parts {
            OwnParts::Chains(chains) => add_longer_leaf(alloc, found, chains, chain),
            OwnParts::Nodes(nodes) => {
                let mut nodes = nodes;
                let Some(last) = nodes.pop() else {
                    return add_leaf(alloc, found, one(alloc, chain)?);
                };
                last.into_longer(alloc, &mut nodes, chain)?;
                add_longer_fork(alloc, found, nodes)
            }
        }
    }

    /// Appends to other nodes those of this one without what says nothing of times from the mark on, and says
    /// whether it is the same. What stays whole is shared.
    pub(crate) fn add_kept(
        &self,
        alloc: Global,
        found: &mut Vec<KeyNode>,
        mark: u64,
    ) -> Result<bool, AllocError>
        ensures is { OnOk result (all_of found.new.items ≡ all_of found.old.items ++ forgotten mark self.now.chunks) }
        ensures same { IfOk result (λ same. IsTrue same → forgotten mark self.now.chunks ≡ self.now.chunks) }
    {
        let nodes = match self.parts() {
            KeyParts::Chains(chains) => {
                if are_kept(chains, mark) {
                    found.push(self.share()?)?;
                    return Ok(true);
                }
                add_leaves(alloc, found, kept_of(alloc, chains, mark)?)?;
                return Ok(false);
            }
            KeyParts::Nodes(nodes) => nodes,
        };
        let mut all = Vec::with_capacity(alloc, nodes.len())?;
        let mut is_same = true;
        let mut rest = nodes;
        while let [node, behind @ ..] = rest {
            is_same = node.add_kept(alloc, &mut all, mark)? && is_same;
            rest = behind;
        }
        if is_same {
            found.push(self.share()?)?;
            return Ok(true);
        }
        add_forks(alloc, found, all)?;
        Ok(false)
    }
}
