//! How chains and nodes are laid together in nodes.
ghost use Rattle.std.specs.Prelude.{◌≡◌, ◌<◌, ◌++◌, List, IfOk, OnOk};
ghost use Rattle.chains.specs.KeyNodes.{chains_below};
ghost use Rattle.chains.specs.KeyWrites.{KeyWrites, IsOrdered};
ghost use Rattle.chains.specs.Shapes.{all_of};

use crate::chain::Chain;
use crate::key_node::KeyNode;
use std::alloc::{AllocError, Global};
use std::mem;

/// How many chains lie together at most. A commit to one of them counts one holder more of what is in
/// each, so they are fewer than the nodes of a fork.
pub(crate) const LEAF_WIDTH: usize = 8;

/// How many nodes lie together at most.
pub(crate) const FORK_WIDTH: usize = 16;

/// How long parts are, of nearly one length, of as many as are more than lie together at most.
fn part_length(count: usize, most: usize) -> usize
    requires { 0 < most }
{
    let parts = (count / most).saturating_add(1);
    (count / parts).saturating_add(1)
}

/// Appends to other nodes one of chains, if there are some.
pub(crate) fn add_leaf(
    alloc: Global,
    found: &mut Vec<KeyNode>,
    chains: Vec<Chain>,
) -> Result<(), AllocError>
    requires { IsOrdered chains.items }
    ensures { OnOk result (all_of found.new.items ≡ all_of found.old.items ++ chains.items) }
{
    let Some(chain) = chains.first() else {
        return Ok(());
    };
    let first = chain.key();
    found.push(KeyNode::leaf(alloc, first, chains)?)?;
    Ok(())
}

/// Appends to other nodes a leaf of some chains where they are as many as that, so that none are left of them.
fn put_full_leaf(
    alloc: Global,
    found: &mut Vec<KeyNode>,
    part: &mut Vec<Chain>,
    length: usize,
) -> Result<(), AllocError>
    requires { IsOrdered part.old.items }
    ensures is { OnOk result (all_of found.new.items ++ part.new.items ≡ all_of found.old.items ++ part.old.items) }
    ensures ordered { OnOk result ((rest : List KeyWrites) → IsOrdered (part.old.items ++ rest) → IsOrdered (part.new.items ++ rest)) }
{
    if part.len() < length {
        return Ok(());
    }
    let next = Vec::with_capacity(alloc, length)?;
    let full = mem::replace(part, next);
    add_leaf(alloc, found, full)
}

/// Appends to other nodes those of chains.
pub(crate) fn add_leaves(
    alloc: Global,
    found: &mut Vec<KeyNode>,
    chains: Vec<Chain>,
) -> Result<(), AllocError>
    requires { IsOrdered chains.items }
    ensures { OnOk result (all_of found.new.items ≡ all_of found.old.items ++ chains.items) }
{
    if chains.len() <= LEAF_WIDTH {
        return add_leaf(alloc, found, chains);
    }
    let length = part_length(chains.len(), LEAF_WIDTH);
    let mut part = Vec::with_capacity(alloc, length)?;
    for chain in chains {
        put_full_leaf(alloc, found, &mut part, length)?;
        part.push(chain)?;
    }
    add_leaf(alloc, found, part)
}

/// Appends to other nodes a fork of nodes, if there are some.
pub(crate) fn add_fork(
    alloc: Global,
    found: &mut Vec<KeyNode>,
    nodes: Vec<KeyNode>,
) -> Result<(), AllocError>
    requires { IsOrdered (all_of nodes.items) }
    ensures { OnOk result (all_of found.new.items ≡ all_of found.old.items ++ all_of nodes.items) }
{
    let Some(node) = nodes.first() else {
        return Ok(());
    };
    let first = node.first_key();
    found.push(KeyNode::fork(alloc, first, nodes)?)?;
    Ok(())
}

/// Appends to other nodes a fork of some nodes where they are as many as that, so that none are left of them.
fn put_full_fork(
    alloc: Global,
    found: &mut Vec<KeyNode>,
    part: &mut Vec<KeyNode>,
    length: usize,
) -> Result<(), AllocError>
    requires { IsOrdered (all_of part.old.items) }
    ensures is { OnOk result (all_of found.new.items ++ all_of part.new.items ≡ all_of found.old.items ++ all_of part.old.items) }
    ensures ordered { OnOk result ((rest : List KeyWrites) → IsOrdered (all_of part.old.items ++ rest) → IsOrdered (all_of part.new.items ++ rest)) }
{
    if part.len() < length {
        return Ok(());
    }
    let next = Vec::with_capacity(alloc, length)?;
    let full = mem::replace(part, next);
    add_fork(alloc, found, full)
}

/// Appends to other nodes forks of nodes.
pub(crate) fn add_forks(
    alloc: Global,
    found: &mut Vec<KeyNode>,
    nodes: Vec<KeyNode>,
) -> Result<(), AllocError>
    requires { IsOrdered (all_of nodes.items) }
    ensures { OnOk result (all_of found.new.items ≡ all_of found.old.items ++ all_of nodes.items) }
{
    if nodes.len() <= FORK_WIDTH {
        return add_fork(alloc, found, nodes);
    }
    let length = part_length(nodes.len(), FORK_WIDTH);
    let mut part = Vec::with_capacity(alloc, length)?;
    for node in nodes {
        put_full_fork(alloc, found, &mut part, length)?;
        part.push(node)?;
    }
    add_fork(alloc, found, part)
}

/// One node of all of these, if there are some.
pub(crate) fn top_of(alloc: Global, nodes: Vec<KeyNode>) -> Result<Option<KeyNode>, AllocError>
    requires { IsOrdered (all_of nodes.items) }
    ensures { IfOk result (λ node. chains_below node ≡ all_of nodes.items) }
{
    let mut nodes = nodes;
    if nodes.len() <= 1 {
        return Ok(nodes.pop());
    }
    let mut forks = Vec::with_capacity(alloc, 1)?;
    add_forks(alloc, &mut forks, nodes)?;
    if forks.len() <= 1 {
        return Ok(forks.pop());
    }
    let Some(node) = forks.first() else {
        return Ok(None);
    };
    let first = node.first_key();
    Ok(Some(KeyNode::fork(alloc, first, forks)?))
}
