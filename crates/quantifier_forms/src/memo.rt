//! Results that are kept.

ghost use Rattle.std.specs.Prelude.{◌≡◌, [], OnOk, OnErr, IfOk, map};
ghost use Rattle.quantifier_forms.specs.Memos.{result_in, known_in, Sets};

use indexmap::IndexMap;
use smt_terms::NodeId;
use std::alloc::{AllocError, Global};
use std::marker::Model;

// A node, and the version of what takes the place of constants in it.
#[derive(Clone, Copy, Debug, PartialEq, Eq, Hash)]
pub(crate) struct Site {
    pub(crate) version: usize,
    pub(crate) node: NodeId,
}

/// Results of nodes, by versions.
#[derive(Drop)]
pub struct Memo {
    results: IndexMap<Site, NodeId>,
}

impl Model for Memo {
    ghost use Rattle.std.specs.Prelude.{List};
    ghost use Rattle.smt_terms.specs.declared.ids.NodeId.{NodeId};
    ghost use Rattle.quantifier_forms.specs.declared.memo.Site.{Site};

    ghost Value = { List (Site × NodeId) };

    ghost view = { λ m. m.results.entries };
}

impl Memo {
    /// No results.
    pub fn new(alloc: Global) -> Memo
        ensures { result ≡ [] }
    {
        Memo {
            results: IndexMap::new(alloc),
        }
    }

    /// The result of a node in a version, or None where it has none.
    pub fn get(&self, version: usize, node: NodeId) -> Option<NodeId>
        ensures { result ≡ result_in self.now version node }
    {
        self.results.get(&Site { version, node }).copied()
    }

    /// The result of a node in a version, or else the node itself.
    pub fn known(&self, version: usize, node: NodeId) -> NodeId
        ensures { result ≡ known_in self.now version node }
    {
        self.get(version, node).unwrap_or(node)
    }

    /// Keeps the result of a node in a version. Where it is refused, all is as before.
    pub fn set(&mut self, version: usize, node: NodeId, value: NodeId) -> Result<(), AllocError>
        ensures ok { OnOk result (Sets self.old self.new version node value) }
        ensures err { OnErr result (self.new ≡ self.old) }
    {
        self.results.insert(Site { version, node }, value)?;
        Ok(())
    }

    /// The results of these nodes in a version, each or else the node itself.
    pub fn known_all(
        &self,
        alloc: Global,
        version: usize,
        nodes: &[NodeId],
    ) -> Result<Vec<NodeId>, AllocError>
        ensures { IfOk result (λ ks. ks.items ≡ map (known_in self.now version) nodes.now) }
    {
        let mut results = Vec::with_capacity(alloc, nodes.len())?;
        for node in nodes {
            results.push(self.known(version, *node))?;
        }
        Ok(results)
    }
}
