//! The nodes of a tree.
ghost use Rattle.std.specs.Prelude.{◌≡◌, IfOk};
ghost use Rattle.rl_tree.specs.Preorder.{arity_of};

use rl_io::OutOfMemory;
use rl_tags::Val;
use std::alloc::Global;
use std::marker::Model;

/// The bytes of a string. A contract sees it as these bytes.
#[derive(Drop)]
pub struct Text {
    bytes: Vec<u8>,
}

impl Model for Text {
    ghost use Rattle.std.specs.Prelude.{List, ℕ};

    ghost Value = { List ℕ };

    ghost view = { λ a. a.bytes.items };
}

impl Text {
    /// The string of these bytes; `OutOfMemory` if there is no memory for them.
    pub fn from_bytes(alloc: Global, bytes: &[u8]) -> Result<Text, OutOfMemory>
        ensures { IfOk result (λ text. text ≡ bytes.now) }
    {
        let bytes = bytes.to_vec(alloc)?;
        Ok(Text { bytes })
    }

    /// Its bytes.
    pub fn bytes(&self) -> &[u8]
        ensures { result.now ≡ self.now }
    {
        &self.bytes
    }
}

/// A node of a tree that stands as the list of its nodes in preorder.
#[derive(Drop)]
pub enum Node {
    /// An integer.
    Int(i128),
    /// An identifier.
    Id(Val),
    /// A string that is spelled out.
    Str(Text),
    /// A pair: the trees of its car and its cdr follow.
    Pair,
    /// A vector of that many elements, whose trees follow.
    Vector(u32),
    /// A leaf that names an object.
    Quoted(Val),
}

impl Node {
    /// How many trees follow the node as its parts.
    pub fn arity(&self) -> u32
        ensures { result ≡ arity_of self.now }
    {
        match self {
            Node::Pair => 2,
            Node::Vector(length) => *length,
            Node::Int(_) | Node::Id(_) | Node::Str(_) | Node::Quoted(_) => 0,
        }
    }

    /// An equal node; `OutOfMemory` if there is no memory for it.
    pub fn copy(&self, alloc: Global) -> Result<Node, OutOfMemory>
        ensures { IfOk result (λ node. node ≡ self.now) }
    {
        match self {
            Node::Int(number) => Ok(Node::Int(*number)),
            Node::Id(id) => Ok(Node::Id(*id)),
            Node::Str(text) => Ok(Node::Str(Text::from_bytes(alloc, text.bytes())?)),
            Node::Pair => Ok(Node::Pair),
            Node::Vector(length) => Ok(Node::Vector(*length)),
            Node::Quoted(object) => Ok(Node::Quoted(*object)),
        }
    }
}
