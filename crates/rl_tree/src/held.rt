//! Held forms: a function's kind, parameters and body as they stood when it was defined.
ghost use Rattle.std.specs.Prelude.{◌≡◌, [], ◌∷◌, ◌++◌, IfOk, OnOk, OnErr};

use crate::trees::Tree;
use rl_io::OutOfMemory;
use rl_tags::Val;
use std::alloc::Global;
use std::marker::Model;

/// How a function takes its arguments: evaluated, as a list of forms, or as the whole form that it expands.
#[derive(Clone, Copy, Debug, PartialEq, Eq)]
pub enum Kind {
    Expr,
    Fexpr,
    Macro,
}

/// How a variable is declared.
#[derive(Clone, Copy, Debug, PartialEq, Eq)]
pub enum VarKind {
    Plain,
    Fluid,
    Global,
}

/// A list of identifiers.
#[derive(Drop)]
pub struct Names {
    ids: Vec<Val>,
}

impl Model for Names {
    ghost use Rattle.std.specs.Prelude.{List};
    ghost use Rattle.rl_tags.specs.Tagged.{Tagged};

    ghost Value = { List Tagged };

    ghost view = { λ a. a.ids.items };
}

impl Names {
    /// No identifiers.
    pub fn new(alloc: Global) -> Names
        ensures { result ≡ [] }
    {
        Names {
            ids: Vec::new(alloc),
        }
    }

    /// One more, at the end. After `OutOfMemory` the list is as before.
    pub fn push(&mut self, id: Val) -> Result<(), OutOfMemory>
        ensures ok { OnOk result (self.new ≡ self.old ++ id ∷ []) }
        ensures err { OnErr result (self.new ≡ self.old) }
    {
        self.ids.push(id)?;
        Ok(())
    }

    /// The identifiers, in the order in which they were pushed.
    pub fn items(&self) -> &[Val]
        ensures { result.now ≡ self.now }
    {
        &self.ids
    }

    /// An equal list; `OutOfMemory` if there is no memory for it.
    pub fn copy(&self, alloc: Global) -> Result<Names, OutOfMemory>
        ensures { IfOk result (λ names. names ≡ self.now) }
    {
        let ids = self.ids.as_slice().to_vec(alloc)?;
        Ok(Names { ids })
    }
}

/// A list of identifiers, each with its declaration.
#[derive(Drop)]
pub struct Kept {
    declared: Vec<(Val, VarKind)>,
}

impl Model for Kept {
    ghost use Rattle.std.specs.Prelude.{List};
    ghost use Rattle.rl_tags.specs.Tagged.{Tagged};
    ghost use Rattle.rl_tree.specs.declared.held.VarKind.{VarKind};

    ghost Value = { List (Tagged × VarKind) };

    ghost view = { λ a. a.declared.items };
}

impl Kept {
    /// No identifiers.
    pub fn new(alloc: Global) -> Kept
        ensures { result ≡ [] }
    {
        Kept {
            declared: Vec::new(alloc),
        }
    }

    /// One more, at the end. After `OutOfMemory` the list is as before.
    pub fn push(&mut self, id: Val, k: VarKind) -> Result<(), OutOfMemory>
        ensures ok { OnOk result (self.new ≡ self.old ++ (id, k) ∷ []) }
        ensures err { OnErr result (self.new ≡ self.old) }
    {
        self.declared.push((id, k))?;
        Ok(())
    }

    /// The pairs, in the order in which they were pushed.
    pub fn items(&self) -> &[(Val, VarKind)]
        ensures { result.now ≡ self.now }
    {
        &self.declared
    }

    /// An equal list; `OutOfMemory` if there is no memory for it.
    pub fn copy(&self, alloc: Global) -> Result<Kept, OutOfMemory>
        ensures { IfOk result (λ kept. kept ≡ self.now) }
    {
        let declared = self.declared.as_slice().to_vec(alloc)?;
        Ok(Kept { declared })
    }
}

/// A held form.
#[derive(Drop)]
pub struct HeldTree {
    /// Its function pointer, or NIL where it is not held; for a function literal the pointer of the function in which it stands.
    pub holder: Val,
    /// What is added to the number of a node of the body to give that node's number in the holder's body.
    pub base: u32,
    pub kind: Kind,
    pub params: Names,
    pub body: Tree,
    /// How each parameter, and each identifier of the body outside quoted parts, was declared when the form was held.
    pub kept: Kept,
}

impl HeldTree {
    /// An equal one, with the same holder and base; `OutOfMemory` if there is no memory for it.
    pub fn copy(&self, alloc: Global) -> Result<HeldTree, OutOfMemory>
        ensures { IfOk result (λ held. held ≡ self.now) }
    {
        let params = self.params.copy(alloc)?;
        let body = self.body.copy(alloc)?;
        let kept = self.kept.copy(alloc)?;
        Ok(HeldTree {
            holder: self.holder,
            base: self.base,
            kind: self.kind,
            params,
            body,
            kept,
        })
    }
}
