//! The world of a run: its bounds, what its values are, and new pairs.
ghost use Rattle.std.specs.Prelude.{◌≡◌, IfOk, OnErr, is_ok};
ghost use Rattle.rl_cells.specs.Cell.{has_room};
ghost use Rattle.rl_text.specs.Datum.{Pair};
ghost use Rattle.rl_read.specs.Frames.{CanMake};
ghost use Rattle.rl_forms.specs.KnownData.{IsBeginning, IsKnown, IsRunning, KeepsKnown, StandsForDatum, datum_in};
ghost use Rattle.rl_forms.specs.SeenValues.{Sees};

use rl_io::OutOfMemory;
use rl_read::laws::{opened_worlds_make, pairs_are_data};
use rl_syms::laws::{others_leave_identifiers, table_is_kept};
use rl_tags::{Tag, Val};
use rl_world::{Limits, World};
use std::alloc::Global;

/// The turns of a run.
const TURNS: u64 = 100_000_000;

/// The cells of a run.
const CELLS: u32 = 4_000_000;

/// The levels of a run.
const NEST: u32 = 50_000;

/// What a value is: an identifier, a pair of its CAR and its CDR, or anything else.
#[derive(Clone, Copy)]
pub(crate) enum Look {
    Other,
    Identifier,
    Pair(Val, Val),
}

/// The world as a run begins: opening has ended, and nothing was printed.
pub(crate) fn open(alloc: Global) -> Result<World, OutOfMemory>
    ensures beginning { IfOk result IsBeginning }
    ensures able { IfOk result CanMake }
{
    opened_worlds_make();
    let limits = Limits {
        turns: TURNS,
        cells: CELLS,
        nest: NEST,
    };
    let mut world = World::open(alloc, limits)?;
    world.opened();
    Ok(world)
}

/// What a value is.
pub(crate) fn look_at(world: &World, v: Val) -> Look
    requires { IsKnown world.now v }
    ensures { Sees world.now v result }
{
    pairs_are_data();
    match v.tag() {
        Tag::Id => Look::Identifier,
        Tag::Pair => Look::Pair(world.cells.car(v), world.cells.cdr(v)),
        _ => Look::Other,
    }
}

/// A new pair. `OutOfMemory` exactly where no cell is left; the world is then as before.
pub(crate) fn cons(world: &mut World, car: Val, cdr: Val) -> Result<Val, OutOfMemory>
    requires running { IsRunning world.old }
    requires car_known { IsKnown world.old car }
    requires cdr_known { IsKnown world.old cdr }
    ensures full { is_ok result ≡ has_room world.old.cells 1 }
    ensures err { OnErr result (world.new ≡ world.old) }
    ensures stands { IfOk result (λ v. StandsForDatum world.new v (Pair (datum_in world.old car) (datum_in world.old cdr))) }
    ensures keeps { KeepsKnown world.old world.new }
    ensures running { IsRunning world.new }
    ensures output { world.new.output ≡ world.old.output }
{
    pairs_are_data();
    table_is_kept();
    others_leave_identifiers();
    match world.cells.cons(car, cdr) {
        Ok(pair) => Ok(pair),
        Err(_) => Err(OutOfMemory),
    }
}
