//! The chains of all keys: a search tree whose nodes are wide.
ghost use Rattle.std.specs.Prelude.{◌≡◌, ◌<◌, ◌≤◌, ◌-◌, ◌++◌, ◌∷◌, IfOk, drop, length};
ghost use Rattle.chains.specs.KeyNodes.{BeginAt, FirstWithout, FirstWithin, IsFromBound, AreKeyParts, IsMadeOf, IsMadeOfOwn};
ghost use Rattle.chains.specs.KeyWrites.{IsOrdered};
ghost use Rattle.chains.specs.Shapes.{all_of};

use crate::bound::Bound;
use crate::chain::Chain;
use crate::share::{Share, add_shared};
use history::Key;
use std::alloc::{AllocError, Global};
use std::marker::Model;
use std::sync::Arc;

/// Chains in the order of their keys, at least one. It never changes while another holds it too.
#[cycle(key_node)]
#[derive(Drop)]
pub(crate) struct KeyNode {
    inside: KeyInside,
}

#[cycle(key_node)]
#[derive(Drop)]
enum KeyInside {
    /// Chains that lie together. The first of their keys lies next to them, so that a search among nodes
    /// reads none but the one that it goes on in.
    Leaf {
        first: Key,
        shared: Arc<Vec<Chain>>,
    },
    /// Nodes one after another that lie together, and the first of their keys.
    Fork {
        first: Key,
        shared: Arc<Vec<KeyNode>>,
    },
}

/// What a node is made of, in a loan: chains, or nodes one after another.
pub(crate) enum KeyParts<'a> {
    Chains(&'a [Chain]),
    Nodes(&'a [KeyNode]),
}

/// What a node is made of, of its own.
#[derive(Drop)]
pub(crate) enum OwnParts {
    Chains(Vec<Chain>),
    Nodes(Vec<KeyNode>),
}

impl Model for KeyNode {
    ghost use Rattle.chains.specs.KeyWrites.{KeyWrites};
    ghost use Rattle.chains.specs.Shapes.{Shape};

    ghost Value = { Shape KeyWrites };

    ghost use Rattle.chains.specs.KeyNodes.{chains_in, IsKeyNode};

    ghost view = { λ n. chains_in n.inside };

    ghost invariant = { λ n. IsKeyNode n.inside };

    ghost size = { λ n. n.height };

    ghost use Rattle.chains.specs.KeyNodesFall.{depth_le-height};

    ghost size_decreases = { λ a h. depth_le-height a.inside };
}

impl Share for KeyNode {
    fn share(&self) -> Result<Self, AllocError> {
        let inside = match &self.inside {
            KeyInside::Leaf { first, shared } => KeyInside::Leaf {
                first: *first,
                shared: Arc::try_clone(shared)?,
            },
            KeyInside::Fork { first, shared } => KeyInside::Fork {
                first: *first,
                shared: Arc::try_clone(shared)?,
            },
        };
        Ok(KeyNode { inside })
    }
}

impl KeyNode {
    /// A node of chains, of which the first is of this key.
    pub(crate) fn leaf(alloc: Global, first: Key, chains: Vec<Chain>) -> Result<Self, AllocError>
        requires first { BeginAt first chains.items }
        requires ordered { IsOrdered chains.items }
        ensures { IfOk result (λ n. n.chunks ≡ chains.items) }
    {
        let shared = Arc::new(alloc, chains)?;
        Ok(KeyNode {
            inside: KeyInside::Leaf { first, shared },
        })
    }

    /// A node of several, one after another, of which the first begins with this key.
    pub(crate) fn fork(alloc: Global, first: Key, nodes: Vec<KeyNode>) -> Result<Self, AllocError>
        requires first { BeginAt first (all_of nodes.items) }
        requires ordered { IsOrdered (all_of nodes.items) }
        ensures { IfOk result (λ n. n.chunks ≡ all_of nodes.items) }
    {
        let shared = Arc::new(alloc, nodes)?;
        Ok(KeyNode {
            inside: KeyInside::Fork { first, shared },
        })
    }

    /// What it is made of.
    #[inline]
    pub(crate) fn parts(&self) -> KeyParts<'_>
        ensures { AreKeyParts self.now result }
    {
        match &self.inside {
            KeyInside::Leaf { shared, .. } => KeyParts::Chains(shared.as_slice()),
            KeyInside::Fork { shared, .. } => KeyParts::Nodes(shared.as_slice()),
        }
    }

    /// What it is made of, where nothing else holds that, or else itself.
    pub(crate) fn into_parts(self) -> Result<OwnParts, KeyNode>
        ensures { IsMadeOfOwn self result }
    {
        match self.inside {
            KeyInside::Leaf { first, shared } => match Arc::try_unwrap(shared) {
                Ok(chains) => Ok(OwnParts::Chains(chains)),
                Err(shared) => Err(KeyNode {
                    inside: KeyInside::Leaf { first, shared },
                }),
            },
            KeyInside::Fork { first, shared } => match Arc::try_unwrap(shared) {
                Ok(nodes) => Ok(OwnParts::Nodes(nodes)),
                Err(shared) => Err(KeyNode {
                    inside: KeyInside::Fork { first, shared },
                }),
            },
        }
    }

    /// What it is made of, with one more holder of each part.
    fn shared_parts(&self, alloc: Global) -> Result<OwnParts, AllocError>
        ensures { IfOk result (λ parts. IsMadeOf self.now parts) }
    {
        match self.parts() {
            KeyParts::Chains(chains) => {
                let mut shared = Vec::with_capacity(alloc, chains.len())?;
                add_shared(&mut shared, chains)?;
                Ok(OwnParts::Chains(shared))
            }
            KeyParts::Nodes(nodes) => {
                let mut shared = Vec::with_capacity(alloc, nodes.len().saturating_add(1))?;
                add_shared(&mut shared, nodes)?;
                Ok(OwnParts::Nodes(shared))
            }
        }
    }

    /// What it is made of: each part with one more holder, where something else holds them all.
    pub(crate) fn into_own_parts(self, alloc: Global) -> Result<OwnParts, AllocError>
        ensures { IfOk result (λ parts. IsMadeOf self parts) }
    {
        match self.into_parts() {
            Ok(parts) => Ok(parts),
            Err(node) => node.shared_parts(alloc),
        }
    }

    /// The first of its keys.
    pub(crate) fn first_key(&self) -> Key
        ensures { BeginAt result self.now.chunks }
    {
        match &self.inside {
            KeyInside::Leaf { first, .. } => *first,
            KeyInside::Fork { first, .. } => *first,
        }
    }
}

/// How many of the nodes begin without the bound. They are few and lie together, so they are passed one
/// after another: which way a step of halving goes a processor cannot foresee.
pub(crate) fn without_count(nodes: &[KeyNode], bound: Bound) -> usize
    ensures within { result ≤ length nodes.now }
    ensures before { 0 < result → FirstWithout bound (drop (result - 1) nodes.now) }
    ensures after { FirstWithin bound (drop result nodes.now) }
{
    let mut without = nodes.len();
    while without > 0 && bound.admits(nodes[without - 1].first_key()) {
        without -= 1;
    }
    without
}

/// The nodes from the last one on that begins without the bound; all of them where none does.
pub(crate) fn from_bound(nodes: &[KeyNode], bound: Bound) -> &[KeyNode]
    requires { IsOrdered (all_of nodes.now) }
    ensures { IsFromBound bound nodes.now result.now }
{
    let without = without_count(nodes, bound);
    &nodes[without.saturating_sub(1)..]
}
