//! Owned trees, each as the list of its nodes in preorder.
ghost use Rattle.std.specs.Prelude.{◌≡◌, ◌↔◌, [], ◌∷◌, ◌++◌, IsTrue, IsSome, IfSome, IfOk, OnOk, OnErr};
ghost use Rattle.rl_tree.specs.Preorder.{IsWholeTree};

use crate::nodes::Node;
use rl_io::OutOfMemory;
use std::alloc::Global;
use std::marker::Model;

/// One whole tree. A contract sees the list of its nodes in preorder.
#[derive(Drop)]
pub struct Tree {
    nodes: Vec<Node>,
}

impl Model for Tree {
    ghost use Rattle.std.specs.Prelude.{List};
    ghost use Rattle.rl_tree.specs.declared.nodes.Node.{Node};

    ghost Value = { List Node };

    ghost view = { λ a. a.nodes.items };

    ghost use Rattle.rl_tree.specs.Preorder.{IsWholeTree};

    ghost invariant = { λ a. IsWholeTree a.nodes.items };
}

impl Tree {
    /// Its nodes in preorder.
    pub fn nodes(&self) -> &[Node]
        ensures nodes { result.now ≡ self.now }
        ensures whole { IsWholeTree self.now }
    {
        self.nodes.as_slice()
    }

    /// An equal tree; `OutOfMemory` if there is no memory for it.
    pub fn copy(&self, alloc: Global) -> Result<Tree, OutOfMemory>
        ensures { IfOk result (λ tree. tree ≡ self.now) }
    {
        let nodes = copy_nodes(alloc, &self.nodes)?;
        Ok(Tree { nodes })
    }
}

fn copy_nodes(alloc: Global, nodes: &[Node]) -> Result<Vec<Node>, OutOfMemory>
    ensures { IfOk result (λ copied. copied.items ≡ nodes.now) }
{
    let mut copied = Vec::new(alloc);
    for node in nodes {
        let same = node.copy(alloc)?;
        copied.push(same)?;
    }
    Ok(copied)
}

/// Whether the nodes are one whole tree in preorder.
fn is_whole(nodes: &[Node]) -> bool
    ensures { IsTrue result ↔ IsWholeTree nodes.now }
{
    let mut wanted: usize = 1;
    for (index, node) in nodes.iter().enumerate() {
        // Each wanted tree takes at least one of the nodes that are left.
        if wanted == 0 || wanted > nodes.len() - index {
            return false;
        }
        wanted = wanted - 1 + node.arity() as usize;
    }
    wanted == 0
}

/// The beginning of a tree. A contract sees the list of the nodes that were pushed.
#[derive(Drop)]
pub struct TreeBuilder {
    nodes: Vec<Node>,
}

impl Model for TreeBuilder {
    ghost use Rattle.std.specs.Prelude.{List};
    ghost use Rattle.rl_tree.specs.declared.nodes.Node.{Node};

    ghost Value = { List Node };

    ghost view = { λ a. a.nodes.items };
}

impl TreeBuilder {
    /// No nodes.
    pub fn new(alloc: Global) -> TreeBuilder
        ensures { result ≡ [] }
    {
        TreeBuilder {
            nodes: Vec::new(alloc),
        }
    }

    /// One more node, in preorder. After `OutOfMemory` the node is dropped, and the others are as before.
    pub fn push(&mut self, node: Node) -> Result<(), OutOfMemory>
        ensures ok { OnOk result (self.new ≡ self.old ++ node ∷ []) }
        ensures err { OnErr result (self.new ≡ self.old) }
    {
        self.nodes.push(node)?;
        Ok(())
    }

    /// The tree of these nodes; None exactly where they are not one whole tree in preorder.
    pub fn finish(self) -> Option<Tree>
        ensures exactly { IsSome result ↔ IsWholeTree self }
        ensures nodes { IfSome result (λ tree. tree ≡ self) }
    {
        if is_whole(&self.nodes) {
            Some(Tree { nodes: self.nodes })
        } else {
            None
        }
    }
}
