//! Owned trees: built, refused and copied.

use rl_io::OutOfMemory;
use rl_tags::{Tag, Val};
use rl_tree::{HeldTree, Kept, Kind, Names, Node, Text, Tree, TreeBuilder, VarKind};
use std::alloc::Global;
use std::test::Fail;

/// `(1 . [x "ab"])`, but for the string.
fn begun(alloc: Global) -> Result<TreeBuilder, OutOfMemory> {
    let mut builder = TreeBuilder::new(alloc);
    builder.push(Node::Pair)?;
    builder.push(Node::Int(1))?;
    builder.push(Node::Vector(2))?;
    builder.push(Node::Id(Val::at(Tag::Id, 7)))?;
    Ok(builder)
}

/// `(1 . [x "ab"])`.
fn whole(alloc: Global) -> Result<Tree, Fail> {
    let mut builder = begun(alloc)?;
    builder.push(Node::Str(Text::from_bytes(alloc, b"ab")?))?;
    Ok(builder.finish().ok_or("no tree")?)
}

fn one_name(alloc: Global, id: Val) -> Result<Names, OutOfMemory> {
    let mut names = Names::new(alloc);
    names.push(id)?;
    Ok(names)
}

fn one_fluid(alloc: Global, id: Val) -> Result<Kept, OutOfMemory> {
    let mut kept = Kept::new(alloc);
    kept.push(id, VarKind::Fluid)?;
    Ok(kept)
}

/// A held form with one parameter, which is fluid.
fn held(alloc: Global, id: Val) -> Result<HeldTree, Fail> {
    let params = one_name(alloc, id)?;
    let kept = one_fluid(alloc, id)?;
    let body = whole(alloc)?;
    Ok(HeldTree {
        holder: Val::at(Tag::Fun, 9),
        base: 4,
        kind: Kind::Fexpr,
        params,
        body,
        kept,
    })
}

fn is_text(node: &Node, bytes: &[u8]) -> bool {
    match node {
        Node::Str(text) => text.bytes() == bytes,
        _ => false,
    }
}

/// How many elements a vector has; 99 for any other node.
fn elements(node: &Node) -> u32 {
    match node {
        Node::Vector(length) => *length,
        _ => 99,
    }
}

#[test]
fn builds_whole_tree(rt: HostRuntime) -> Result<(), Fail> {
    let tree = whole(rt.alloc())?;
    assert!(rt; is_whole(tree.nodes()));
    Ok(())
}

#[test]
fn refuses_other_lists(rt: HostRuntime) -> Result<(), Fail> {
    assert!(rt; TreeBuilder::new(rt.alloc()).finish().is_none());
    assert!(rt; begun(rt.alloc())?.finish().is_none());
    let mut builder = begun(rt.alloc())?;
    builder.push(Node::Vector(0))?;
    builder.push(Node::Quoted(Val::at(Tag::Pair, 3)))?;
    assert!(rt; builder.finish().is_none());
    let mut builder = TreeBuilder::new(rt.alloc());
    builder.push(Node::Vector(4_294_967_295))?;
    assert!(rt; builder.finish().is_none());
    Ok(())
}

fn is_held(held: &HeldTree, id: Val) -> bool {
    held.holder == Val::at(Tag::Fun, 9)
        && held.base == 4
        && held.kind == Kind::Fexpr
        && held.params.items() == [id].as_slice()
}

fn is_one_fluid(kept: &[(Val, VarKind)], id: Val) -> bool {
    kept.len() == 1 && kept[0].0 == id && kept[0].1 == VarKind::Fluid
}

fn is_whole(nodes: &[Node]) -> bool {
    nodes.len() == 5 && elements(&nodes[2]) == 2 && is_text(&nodes[4], b"ab")
}

#[test]
fn copies_held_tree(rt: HostRuntime) -> Result<(), Fail> {
    let x = Val::at(Tag::Id, 7);
    let copy = held(rt.alloc(), x)?.copy(rt.alloc())?;
    assert!(rt; is_held(&copy, x));
    assert!(rt; is_one_fluid(copy.kept.items(), x));
    assert!(rt; is_whole(copy.body.nodes()));
    Ok(())
}
