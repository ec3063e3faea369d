//! Laws of trees as lists of nodes.
ghost use Rattle.std.specs.Prelude.{◌≡◌, ◌↔◌, List};
ghost use Rattle.rl_tree.specs.declared.nodes.Node.{Node};
ghost use Rattle.rl_tree.specs.Preorder.{IsWholeTree, NodeTree, preorder};

/// The lists of nodes that are one whole tree are the preorder lists of trees.
pub fn whole_is_preorder()
    ensures { (nodes : List Node) → IsWholeTree nodes ↔ ((tree : NodeTree) × (preorder tree ≡ nodes)) }
{}

/// Trees with the same preorder list are the same tree.
pub fn preorder_tells_tree()
    ensures { (some other : NodeTree) → preorder some ≡ preorder other → some ≡ other }
{}
