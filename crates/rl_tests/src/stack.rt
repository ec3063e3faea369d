//! The stack of a run: tables of calls and of what they answer.
ghost use Rattle.std.specs.Prelude.{◌≡◌, [], None, IsTrue, IfOk};
ghost use Rattle.std.specs.Option.{ForSome};
ghost use Rattle.rl_state.specs.Worlds.{IsWorld};
ghost use Rattle.rl_stack.specs.ShowsStack.{IsStackLive, IsVariable, StandsIn};
ghost use Rattle.rl_stack.specs.StackState.{MayWait};
ghost use Rattle.rl_tests.specs.Alike.{AreAlike};

use rl_io::OutOfMemory;
use rl_stack::Stack;
use rl_stack::laws::what_is_stacked_stays;
use rl_state::{deeper, open};
use rl_tags::{EMSG_STAR, NIL, Tag, Val};
use rl_tree::VarKind;
use rl_world::{Limits, World};
use std::alloc::Global;
use std::marker::Model;
use std::test::Fail;

/// A call that binds a variable, or tells of it. Each variable is one of opening.
#[derive(Clone, Copy)]
enum Call {
    /// Enters so many levels, and binds a variable, whose undoing leaves them.
    Bind(&'static [u8], i8, u32),
    /// A function begins.
    Mark,
    Assign(&'static [u8], i8),
    /// The value of a variable.
    Lookup(&'static [u8]),
    /// The value below all bindings.
    Top(&'static [u8]),
    SetTop(&'static [u8], i8),
    /// Undoes bindings and marks until there are no more than so many.
    Unbind(u64),
    Depth,
    Level,
}

/// What a call answers.
#[derive(Clone, Copy, PartialEq, Eq)]
enum Answer {
    Done,
    Value(i64),
    Nil,
    Unbound,
    Number(u64),
    TooDeep,
    /// The call may not be made.
    Barred,
}

/// What a variable has.
fn told(value: Option<Val>) -> Answer {
    match value {
        None => Answer::Unbound,
        Some(v) => {
            if v.tag() == Tag::Int {
                Answer::Value(v.number())
            } else if v == NIL {
                Answer::Nil
            } else {
                Answer::Barred
            }
        }
    }
}

/// A world and a stack. A contract sees no more than that calls may be made.
#[derive(Drop)]
struct Bench {
    world: World,
    stack: Stack,
}

impl Model for Bench {
    ghost use Rattle.rl_state.specs.Worlds.{IsWorld};
    ghost use Rattle.rl_stack.specs.ShowsStack.{IsStackLive, StandsIn};

    ghost Value = { Unit {0} };

    ghost view = { λ _. tt };

    ghost invariant = { λ a. IsWorld a.world × StandsIn a.world a.stack × IsStackLive a.world.cells.cells a.stack };
}

/// A world in opening of so many levels.
fn world_of(alloc: Global, nest: u16) -> Result<World, OutOfMemory>
    ensures world { IfOk result (λ w. IsWorld w) }
    ensures levels { IfOk result (λ w. w.levels ≡ record { bound = nest; level = 0; walk = []; aside = None }) }
{
    let limits = Limits {
        turns: 0,
        cells: 100,
        nest: u32::from(nest),
    };
    open(alloc, limits)
}

/// The variable of a name, None where it may not be bound.
fn variable(w: &World, name: &[u8]) -> Option<Val>
    requires { IsWorld w.now }
    ensures { ForSome result (λ v. IsVariable w.now.cells.cells v) }
{
    match w.syms.find(&w.cells, name) {
        Some(id) => { if id == EMSG_STAR { None } else { Some(id) } }
        None => None,
    }
}

/// Enters levels, and binds a variable within them.
fn bind_within(w: &mut World, stack: &mut Stack, id: Val, n: i8, levels: u32) -> Answer
    requires world { IsWorld w.old }
    requires stands { StandsIn w.old stack.old }
    requires live { IsStackLive w.old.cells.cells stack.old }
    requires id { IsVariable w.old.cells.cells id }
    ensures world { IsWorld w.new }
    ensures stands { StandsIn w.new stack.new }
    ensures live { IsStackLive w.new.cells.cells stack.new }
{
    match deeper(w, levels) {
        Ok(()) => {
            if stack.depth() >= 16 * u64::from(w.level()) {
                return Answer::Barred;
            }
            stack.bind(w, id, VarKind::Plain, Val::small(i64::from(n)), levels);
            Answer::Done
        }
        Err(_) => Answer::TooDeep,
    }
}

impl Bench {
    /// A world in opening of so many levels, and a stack for it.
    fn new(alloc: Global, nest: u16) -> Result<Bench, OutOfMemory> {
        what_is_stacked_stays();
        let world = world_of(alloc, nest)?;
        let stack = Stack::open(alloc, u32::from(nest))?;
        Ok(Bench { world, stack })
    }

    fn bind(&mut self, name: &[u8], n: i8, levels: u32) -> Answer {
        match variable(&self.world, name) {
            Some(id) => bind_within(&mut self.world, &mut self.stack, id, n, levels),
            None => Answer::Barred,
        }
    }

    fn mark(&mut self) -> Answer {
        if self.stack.depth() >= 16 * u64::from(self.world.level()) {
            return Answer::Barred;
        }
        self.stack.mark(&self.world, None);
        Answer::Done
    }

    fn assign(&mut self, name: &[u8], n: i8) -> Answer {
        match variable(&self.world, name) {
            Some(id) => {
                let v = Val::small(i64::from(n));
                self.stack.assign(&mut self.world, id, v);
                Answer::Done
            }
            None => Answer::Barred,
        }
    }

    fn lookup(&self, name: &[u8]) -> Answer {
        match variable(&self.world, name) {
            Some(id) => told(self.stack.lookup(&self.world, id)),
            None => Answer::Barred,
        }
    }

    fn top(&self, name: &[u8]) -> Answer {
        match variable(&self.world, name) {
            Some(id) => told(self.stack.top(&self.world, id)),
            None => Answer::Barred,
        }
    }

    fn set_top(&mut self, name: &[u8], n: i8) -> Answer {
        match variable(&self.world, name) {
            Some(id) => {
                let v = Val::small(i64::from(n));
                self.stack.set_top(&mut self.world, id, v);
                Answer::Done
            }
            None => Answer::Barred,
        }
    }

    fn unbind(&mut self, depth: u64) -> Answer {
        self.stack.unbind_to(&mut self.world, depth);
        Answer::Done
    }

    fn answer(&mut self, call: Call) -> Answer {
        match call {
            Call::Bind(name, n, levels) => self.bind(name, n, levels),
            Call::Mark => self.mark(),
            Call::Assign(name, n) => self.assign(name, n),
            Call::Lookup(name) => self.lookup(name),
            Call::Top(name) => self.top(name),
            Call::SetTop(name, n) => self.set_top(name, n),
            Call::Unbind(depth) => self.unbind(depth),
            Call::Depth => Answer::Number(self.stack.depth()),
            Call::Level => Answer::Number(u64::from(self.world.level())),
        }
    }
}

/// The first row that fails, in a world of so many levels.
fn first_wrong(
    alloc: Global,
    nest: u16,
    rows: &[(Call, Answer)],
) -> Result<Option<usize>, OutOfMemory> {
    let mut bench = Bench::new(alloc, nest)?;
    for (i, row) in rows.iter().enumerate() {
        if bench.answer(row.0) != row.1 {
            return Ok(Some(i));
        }
    }
    Ok(None)
}

const BINDINGS: &[(Call, Answer)] = &[
    (Call::Lookup(b"X"), Answer::Unbound),
    (Call::Top(b"X"), Answer::Unbound),
    (Call::Bind(b"X", 1, 2), Answer::Done),
    (Call::Lookup(b"X"), Answer::Value(1)),
    (Call::Top(b"X"), Answer::Unbound),
    (Call::Mark, Answer::Done),
    (Call::Bind(b"Y", 2, 0), Answer::Done),
    (Call::Bind(b"X", 3, 0), Answer::Done),
    (Call::Depth, Answer::Number(4)),
    (Call::Lookup(b"X"), Answer::Value(3)),
    (Call::Lookup(b"Y"), Answer::Value(2)),
    // An assignment is to the newest binding alone.
    (Call::Assign(b"X", 4), Answer::Done),
    (Call::Lookup(b"X"), Answer::Value(4)),
    (Call::Top(b"X"), Answer::Unbound),
    // And what is below all bindings is set below them alone.
    (Call::SetTop(b"X", 5), Answer::Done),
    (Call::Top(b"X"), Answer::Value(5)),
    (Call::Top(b"Y"), Answer::Unbound),
    (Call::Lookup(b"X"), Answer::Value(4)),
    (Call::Unbind(4), Answer::Done),
    (Call::Lookup(b"X"), Answer::Value(4)),
    (Call::Unbind(3), Answer::Done),
    (Call::Lookup(b"X"), Answer::Value(1)),
    (Call::Lookup(b"Y"), Answer::Value(2)),
    (Call::Unbind(0), Answer::Done),
    (Call::Depth, Answer::Number(0)),
    (Call::Lookup(b"X"), Answer::Value(5)),
    (Call::Lookup(b"Y"), Answer::Unbound),
    // Where nothing is bound, the value of a variable is the one below all bindings.
    (Call::Assign(b"X", 6), Answer::Done),
    (Call::Top(b"X"), Answer::Value(6)),
    (Call::SetTop(b"X", 7), Answer::Done),
    (Call::Lookup(b"X"), Answer::Value(7)),
    // As opening begins, no identifier has a value yet, and NIL has none either.
    (Call::Lookup(b"NIL"), Answer::Unbound),
    (Call::Bind(b"EMSG*", 1, 0), Answer::Barred),
];

#[test]
fn variables_have_their_newest_values(rt: HostRuntime) -> Result<(), Fail> {
    assert_eq!(rt; first_wrong(rt.alloc(), 10, BINDINGS)?, None);
    Ok(())
}

const LEVELS: &[(Call, Answer)] = &[
    (Call::Bind(b"X", 1, 0), Answer::Barred),
    (Call::Mark, Answer::Barred),
    (Call::Bind(b"X", 1, 3), Answer::Done),
    (Call::Bind(b"X", 2, 8), Answer::TooDeep),
    (Call::Level, Answer::Number(3)),
    (Call::Depth, Answer::Number(1)),
    (Call::Mark, Answer::Done),
    (Call::Bind(b"Y", 2, 7), Answer::Done),
    (Call::Bind(b"Z", 3, 1), Answer::TooDeep),
    (Call::Bind(b"Z", 3, 0), Answer::Done),
    (Call::Level, Answer::Number(10)),
    (Call::Unbind(3), Answer::Done),
    (Call::Level, Answer::Number(10)),
    (Call::Unbind(2), Answer::Done),
    (Call::Level, Answer::Number(3)),
    (Call::Unbind(1), Answer::Done),
    (Call::Level, Answer::Number(3)),
    (Call::Unbind(0), Answer::Done),
    (Call::Level, Answer::Number(0)),
];

#[test]
fn bindings_leave_their_levels(rt: HostRuntime) -> Result<(), Fail> {
    assert_eq!(rt; first_wrong(rt.alloc(), 10, LEVELS)?, None);
    Ok(())
}

/// The world's levels and the stack are full: 16 bindings or marks for each level, and no more.
const FULL: &[(Call, Answer)] = &[
    (Call::Bind(b"X", 1, 1), Answer::Done),
    (Call::Bind(b"X", 2, 1), Answer::TooDeep),
    (Call::Bind(b"A", 2, 0), Answer::Done),
    (Call::Bind(b"B", 3, 0), Answer::Done),
    (Call::Bind(b"C", 4, 0), Answer::Done),
    (Call::Bind(b"D", 5, 0), Answer::Done),
    (Call::Bind(b"E", 6, 0), Answer::Done),
    (Call::Bind(b"F", 7, 0), Answer::Done),
    (Call::Bind(b"G", 8, 0), Answer::Done),
    (Call::Bind(b"H", 9, 0), Answer::Done),
    (Call::Bind(b"I", 10, 0), Answer::Done),
    (Call::Bind(b"J", 11, 0), Answer::Done),
    (Call::Bind(b"K", 12, 0), Answer::Done),
    (Call::Bind(b"L", 13, 0), Answer::Done),
    (Call::Mark, Answer::Done),
    (Call::Mark, Answer::Done),
    (Call::Bind(b"X", 16, 0), Answer::Done),
    (Call::Depth, Answer::Number(16)),
    (Call::Mark, Answer::Barred),
    (Call::Bind(b"X", 17, 0), Answer::Barred),
    (Call::Lookup(b"X"), Answer::Value(16)),
    (Call::Unbind(13), Answer::Done),
    (Call::Lookup(b"X"), Answer::Value(1)),
    (Call::Lookup(b"L"), Answer::Value(13)),
    (Call::SetTop(b"X", 18), Answer::Done),
    (Call::Unbind(0), Answer::Done),
    (Call::Lookup(b"X"), Answer::Value(18)),
    (Call::Lookup(b"L"), Answer::Unbound),
    (Call::Level, Answer::Number(0)),
];

#[test]
fn a_full_stack_stays_as_it_is(rt: HostRuntime) -> Result<(), Fail> {
    assert_eq!(rt; first_wrong(rt.alloc(), 1, FULL)?, None);
    Ok(())
}

/// The value of the binding at this depth.
fn value_at(depth: u64) -> i8 {
    (depth % 100) as i8
}

/// The first depth at which a variable is not bound to its value, on the way down.
fn first_unbound(bench: &mut Bench, deep: u64) -> Option<u64> {
    for depth in 0..deep {
        let levels = if depth % 16 == 0 { 1 } else { 0 };
        if bench.bind(b"X", value_at(depth), levels) != Answer::Done {
            return Some(depth);
        }
    }
    None
}

/// The first depth at which it has another value, on the way back.
fn first_lost(bench: &mut Bench, deep: u64) -> Option<u64> {
    for k in 0..deep {
        let depth = deep - 1 - k;
        if bench.lookup(b"X") != Answer::Value(i64::from(value_at(depth))) {
            return Some(depth);
        }
        let _undone = bench.unbind(depth);
    }
    None
}

/// Where binding a variable so often, and undoing it, goes wrong; and its value and the levels afterwards.
fn deep_and_back(
    alloc: Global,
    deep: u64,
) -> Result<(Option<u64>, Option<u64>, bool, u32), OutOfMemory> {
    let mut bench = Bench::new(alloc, 2_000)?;
    let unbound = first_unbound(&mut bench, deep);
    let lost = first_lost(&mut bench, deep);
    let is_free = bench.lookup(b"X") == Answer::Unbound;
    Ok((unbound, lost, is_free, bench.world.level()))
}

#[test]
fn bindings_go_deep_and_come_back(rt: HostRuntime) -> Result<(), Fail> {
    let told = deep_and_back(rt.alloc(), 20_000)?;
    assert_eq!(rt; told, (None, None, true, 0));
    Ok(())
}

/// The first register that is not NIL.
fn first_set(stack: &Stack) -> Option<u32> {
    for r in 1..16 {
        if stack.register(r) != NIL {
            return Some(r);
        }
    }
    None
}

fn set_all(stack: &mut Stack) {
    for r in 1..16 {
        stack.set_register(r, Val::small(i64::from(r)));
    }
}

/// The first register that does not have its number.
fn first_other(stack: &Stack) -> Option<u32> {
    for r in 1..16 {
        if stack.register(r) != Val::small(i64::from(r)) {
            return Some(r);
        }
    }
    None
}

/// The first register that is not NIL at opening, the first that does not have its number once each got it, and what the
/// neighbours of one have after it was set.
fn registers(stack: &mut Stack) -> (Option<u32>, Option<u32>, Val, Val, Val) {
    let set = first_set(stack);
    set_all(stack);
    let other = first_other(stack);
    stack.set_register(8, NIL);
    (
        set,
        other,
        stack.register(7),
        stack.register(8),
        stack.register(9),
    )
}

#[test]
fn registers_have_what_they_got(rt: HostRuntime) -> Result<(), Fail> {
    let mut stack = Stack::open(rt.alloc(), 1)?;
    let told = registers(&mut stack);
    assert_eq!(rt; told, (None, None, Val::small(7), NIL, Val::small(9)));
    Ok(())
}

/// A call on frames, each of one level and two slots: 58 values wait on one below another, and 16 more on the newest.
#[derive(Clone, Copy)]
enum FrameCall {
    /// Adds a frame of this owner.
    Push(u64),
    Pop,
    Frames,
    Owner,
    Place,
    SetPlace(u64),
    Slot(u32),
    SetSlot(u32, i8),
    /// So many values wait, each its number among them.
    Wait(i8),
    /// The newest value that waits.
    Take,
    Waiting,
    Level,
}

/// A world and a stack whose frames have one level and two slots each.
#[derive(Drop)]
struct Frames {
    world: World,
    stack: Stack,
}

impl Model for Frames {
    ghost use Rattle.rl_state.specs.Worlds.{IsWorld};
    ghost use Rattle.rl_stack.specs.ShowsStack.{StandsIn};
    ghost use Rattle.rl_tests.specs.Alike.{AreAlike};

    ghost Value = { Unit {0} };

    ghost view = { λ _. tt };

    ghost invariant = { λ a. IsWorld a.world × StandsIn a.world a.stack × AreAlike a.stack.frames };
}

/// Whether one more value may wait.
fn may_wait(stack: &Stack) -> bool
    requires { AreAlike stack.now.frames }
    ensures { IsTrue result → MayWait stack.now.frames stack.now.unframed }
{
    if stack.frames() == 0 {
        stack.waiting() < 16
    } else {
        stack.waiting() < 74
    }
}

impl Frames {
    /// A world in opening of so many levels, and a stack for it.
    fn new(alloc: Global, nest: u16) -> Result<Frames, OutOfMemory> {
        let world = world_of(alloc, nest)?;
        let stack = Stack::open(alloc, u32::from(nest))?;
        Ok(Frames { world, stack })
    }

    fn push(&mut self, owner: u64) -> Answer {
        if self.stack.waiting() > 58 {
            return Answer::Barred;
        }
        match self.stack.push_frame(&mut self.world, 1, 2, owner) {
            Ok(()) => Answer::Done,
            Err(_) => Answer::TooDeep,
        }
    }

    fn pop(&mut self) -> Answer {
        if self.stack.frames() == 0 {
            return Answer::Barred;
        }
        self.stack.pop_frame(&mut self.world);
        Answer::Done
    }

    fn owner(&self) -> Answer {
        if self.stack.frames() == 0 {
            return Answer::Barred;
        }
        Answer::Number(self.stack.owner())
    }

    fn place(&self) -> Answer {
        if self.stack.frames() == 0 {
            return Answer::Barred;
        }
        Answer::Number(self.stack.place())
    }

    fn set_place(&mut self, p: u64) -> Answer {
        if self.stack.frames() == 0 {
            return Answer::Barred;
        }
        what_is_stacked_stays();
        self.stack.set_place(p);
        Answer::Done
    }

    fn slot(&self, i: u32) -> Answer {
        if self.stack.frames() == 0 || i >= 2 {
            return Answer::Barred;
        }
        told(Some(self.stack.slot(i)))
    }

    fn set_slot(&mut self, i: u32, n: i8) -> Answer {
        if self.stack.frames() == 0 || i >= 2 {
            return Answer::Barred;
        }
        what_is_stacked_stays();
        self.stack.set_slot(i, Val::small(i64::from(n)));
        Answer::Done
    }

    fn wait_one(&mut self, n: i8) -> bool {
        if !may_wait(&self.stack) {
            return false;
        }
        what_is_stacked_stays();
        self.stack.push(Val::small(i64::from(n)));
        true
    }

    fn wait(&mut self, many: i8) -> Answer {
        for n in 0..many {
            if !self.wait_one(n) {
                return Answer::Barred;
            }
        }
        Answer::Done
    }

    fn take(&mut self) -> Answer {
        if self.stack.waiting() == 0 {
            return Answer::Barred;
        }
        what_is_stacked_stays();
        told(Some(self.stack.pop()))
    }

    fn answer(&mut self, call: FrameCall) -> Answer {
        match call {
            FrameCall::Push(owner) => self.push(owner),
            FrameCall::Pop => self.pop(),
            FrameCall::Frames => Answer::Number(self.stack.frames()),
            FrameCall::Owner => self.owner(),
            FrameCall::Place => self.place(),
            FrameCall::SetPlace(p) => self.set_place(p),
            FrameCall::Slot(i) => self.slot(i),
            FrameCall::SetSlot(i, n) => self.set_slot(i, n),
            FrameCall::Wait(many) => self.wait(many),
            FrameCall::Take => self.take(),
            FrameCall::Waiting => Answer::Number(u64::from(self.stack.waiting())),
            FrameCall::Level => Answer::Number(u64::from(self.world.level())),
        }
    }
}

/// The first row that fails, in a world of so many levels.
fn first_wrong_frame(
    alloc: Global,
    nest: u16,
    rows: &[(FrameCall, Answer)],
) -> Result<Option<usize>, OutOfMemory> {
    let mut bench = Frames::new(alloc, nest)?;
    for (i, row) in rows.iter().enumerate() {
        if bench.answer(row.0) != row.1 {
            return Ok(Some(i));
        }
    }
    Ok(None)
}

const FRAMES: &[(FrameCall, Answer)] = &[
    (FrameCall::Owner, Answer::Barred),
    (FrameCall::Pop, Answer::Barred),
    (FrameCall::Take, Answer::Barred),
    // On no frame 16 values wait, and a frame lies above them.
    (FrameCall::Wait(17), Answer::Barred),
    (FrameCall::Waiting, Answer::Number(16)),
    (FrameCall::Push(5), Answer::Done),
    (FrameCall::Waiting, Answer::Number(0)),
    (FrameCall::Owner, Answer::Number(5)),
    (FrameCall::Place, Answer::Number(0)),
    (FrameCall::Slot(0), Answer::Nil),
    (FrameCall::Slot(1), Answer::Nil),
    (FrameCall::Slot(2), Answer::Barred),
    (FrameCall::SetSlot(0, 7), Answer::Done),
    (FrameCall::Slot(1), Answer::Nil),
    (FrameCall::SetSlot(1, 8), Answer::Done),
    (FrameCall::SetPlace(9), Answer::Done),
    (FrameCall::Wait(3), Answer::Done),
    (FrameCall::Slot(0), Answer::Value(7)),
    (FrameCall::Slot(1), Answer::Value(8)),
    (FrameCall::Place, Answer::Number(9)),
    (FrameCall::Level, Answer::Number(1)),
    // A second frame takes the last level, and no third one comes.
    (FrameCall::Push(6), Answer::Done),
    (FrameCall::Level, Answer::Number(2)),
    (FrameCall::Slot(0), Answer::Nil),
    (FrameCall::SetSlot(0, 1), Answer::Done),
    (FrameCall::SetPlace(2), Answer::Done),
    (FrameCall::Wait(58), Answer::Done),
    (FrameCall::Push(7), Answer::TooDeep),
    (FrameCall::Frames, Answer::Number(2)),
    (FrameCall::Owner, Answer::Number(6)),
    (FrameCall::Level, Answer::Number(2)),
    (FrameCall::Waiting, Answer::Number(58)),
    (FrameCall::Wait(17), Answer::Barred),
    (FrameCall::Waiting, Answer::Number(74)),
    (FrameCall::Push(7), Answer::Barred),
    (FrameCall::Take, Answer::Value(15)),
    (FrameCall::Slot(0), Answer::Value(1)),
    // The first frame, and what waited on none, are as they were.
    (FrameCall::Pop, Answer::Done),
    (FrameCall::Level, Answer::Number(1)),
    (FrameCall::Owner, Answer::Number(5)),
    (FrameCall::Place, Answer::Number(9)),
    (FrameCall::Slot(0), Answer::Value(7)),
    (FrameCall::Slot(1), Answer::Value(8)),
    (FrameCall::Waiting, Answer::Number(3)),
    (FrameCall::Take, Answer::Value(2)),
    (FrameCall::Take, Answer::Value(1)),
    (FrameCall::Take, Answer::Value(0)),
    (FrameCall::Take, Answer::Barred),
    (FrameCall::Pop, Answer::Done),
    (FrameCall::Frames, Answer::Number(0)),
    (FrameCall::Level, Answer::Number(0)),
    (FrameCall::Waiting, Answer::Number(16)),
    (FrameCall::Take, Answer::Value(15)),
    (FrameCall::Take, Answer::Value(14)),
];

#[test]
fn frames_keep_what_is_on_them(rt: HostRuntime) -> Result<(), Fail> {
    assert_eq!(rt; first_wrong_frame(rt.alloc(), 2, FRAMES)?, None);
    Ok(())
}
