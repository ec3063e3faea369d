//! Scripts for a world over objects in memory: tables of calls and their answers.
ghost use Rattle.std.specs.Prelude.{◌≡◌, None, [], IfOk};
ghost use Rattle.rl_world.specs.Counts.{counts_at_opening};
ghost use Rattle.rl_world.specs.Errors.{AreTexts};
ghost use Rattle.rl_world.specs.Input.{ended_after, given_after};

use crate::edge::{Edge, sources};
use rl_io::{Failed, Files, Io, MemFiles, MemSink, MemSource, Sink, Source};
use rl_tags::{NIL, T, Val};
use rl_world::{Limits, Stop, World};
use std::cell::Cell;
use std::test::Fail;

/// Few turns, cells and levels.
const FEW: Limits = Limits {
    turns: 3,
    cells: 10,
    nest: 4,
};

/// A macro, for the tables: a constant can hold no `Val`.
#[derive(Clone, Copy, PartialEq, Eq)]
enum Macro {
    Outer,
    Inner,
    Other,
}

fn name_of(of: Macro) -> Val {
    match of {
        Macro::Outer => T,
        Macro::Inner => NIL,
        Macro::Other => Val::small(0),
    }
}

fn macro_of(name: Val) -> Macro {
    if name == T {
        Macro::Outer
    } else if name == NIL {
        Macro::Inner
    } else {
        Macro::Other
    }
}

/// What a call answers.
#[derive(Clone, Copy, PartialEq, Eq)]
enum Answer {
    Done,
    Number(u64),
    Byte(Option<u8>),
    Words(u64, u64, u64),
    NoTurns,
    NoCells,
    TooDeep,
    Expanded(Macro),
    NoRead,
    NoWrite,
    NoFiles,
    /// The call may not be made.
    Barred,
}

fn stopped(stop: Stop) -> Answer {
    match stop {
        Stop::Turns => Answer::NoTurns,
        Stop::Cells => Answer::NoCells,
        Stop::Depth => Answer::TooDeep,
        Stop::Expansion(name) => Answer::Expanded(macro_of(name)),
        Stop::Read => Answer::NoRead,
        Stop::Write => Answer::NoWrite,
        Stop::Files | Stop::Missing => Answer::NoFiles,
    }
}

fn ended(end: Result<(), Stop>) -> Answer {
    match end {
        Ok(()) => Answer::Done,
        Err(stop) => stopped(stop),
    }
}

fn given(end: Result<Option<u8>, Stop>) -> Answer {
    match end {
        Ok(byte) => Answer::Byte(byte),
        Err(stop) => stopped(stop),
    }
}

/// A world in opening.
fn opening(rt: &HostRuntime) -> Result<World, Fail>
    ensures unsettled { IfOk result (λ w. w.cells.count ≡ None) }
    ensures texts { IfOk result (λ w. AreTexts w.cells.cells w.texts 14) }
    ensures counts { IfOk result (λ w. w.counts ≡ counts_at_opening 3 10) }
    ensures walk { IfOk result (λ w. w.levels.walk ≡ []) }
{
    Ok(World::open(rt.alloc(), FEW)?)
}

/// A world, in opening or after it.
fn world(rt: &HostRuntime, is_opened: bool) -> Result<World, Fail> {
    let mut world = opening(rt)?;
    if is_opened {
        world.opened();
    }
    Ok(world)
}

/// A call that moves bytes, or tells of it.
#[derive(Clone, Copy)]
enum MoveCall {
    /// Prints this many bytes, which count up to 250 and begin again.
    Print(u32),
    /// Notes this many of them.
    Note(u32),
    Flush,
    /// Takes a byte.
    Next,
    /// Takes a byte and puts it back.
    Look,
    Taken,
    Column,
}

/// A call that counts, or tells of the counts.
#[derive(Clone, Copy)]
enum CountCall {
    /// Takes this many turns, until a stop.
    Tick(u32),
    Turns,
    Room(u32),
    /// Makes a string of three cells, and tells the cells that are used then.
    String,
    Begin(Macro),
    End,
    Expansions,
    Enter(u32),
    Leave(u32),
    Level,
    Push(u64, u64, u64),
    Pop,
    Walks,
    SetLine(u64),
    Line,
}

/// A world, the objects around it, and which byte comes next of those that count up.
#[derive(Drop)]
struct Run {
    world: World,
    edge: Edge,
    at: u32,
}

impl Run {
    fn put(&mut self) -> Result<(), Stop> {
        let b = counted(self.at);
        self.at = self.at.wrapping_add(1);
        self.world.put_byte(
            b,
            &mut Io {
                input: &mut self.edge.input,
                out: &mut self.edge.out,
                notes: &mut self.edge.notes,
                files: &mut self.edge.files,
            },
        )
    }

    fn note(&mut self) -> Result<(), Stop> {
        let b = counted(self.at);
        self.at = self.at.wrapping_add(1);
        self.world.note_byte(
            b,
            &mut Io {
                input: &mut self.edge.input,
                out: &mut self.edge.out,
                notes: &mut self.edge.notes,
                files: &mut self.edge.files,
            },
        )
    }

    fn flush(&mut self) -> Result<(), Stop> {
        self.world.flush(&mut Io {
            input: &mut self.edge.input,
            out: &mut self.edge.out,
            notes: &mut self.edge.notes,
            files: &mut self.edge.files,
        })
    }

    fn next(&mut self) -> Result<Option<u8>, Stop>
        ensures { IfOk result (λ b. self.new.world.input ≡ record { back = None; given = given_after b self.old.world.input.given; ended = ended_after b self.old.world.input.ended }) }
    {
        self.world.input_byte(&mut Io {
            input: &mut self.edge.input,
            out: &mut self.edge.out,
            notes: &mut self.edge.notes,
            files: &mut self.edge.files,
        })
    }

    fn print_all(&mut self, bytes: u32) -> Result<(), Stop> {
        for _ in 0..bytes {
            self.put()?;
        }
        Ok(())
    }

    fn note_all(&mut self, bytes: u32) -> Result<(), Stop> {
        for _ in 0..bytes {
            self.note()?;
        }
        Ok(())
    }

    fn look(&mut self) -> Result<Option<u8>, Stop> {
        let byte = self.next()?;
        if let Some(b) = byte {
            self.world.input_back(b);
        }
        Ok(byte)
    }

    fn answer(&mut self, call: MoveCall) -> Answer {
        match call {
            MoveCall::Print(bytes) => ended(self.print_all(bytes)),
            MoveCall::Note(bytes) => ended(self.note_all(bytes)),
            MoveCall::Flush => ended(self.flush()),
            MoveCall::Next => given(self.next()),
            MoveCall::Look => given(self.look()),
            MoveCall::Taken => Answer::Number(self.world.taken()),
            MoveCall::Column => Answer::Number(self.world.column()),
        }
    }

    /// The first row that fails.
    fn first_wrong(&mut self, rows: &[MoveRow]) -> Option<usize> {
        for (i, row) in rows.iter().enumerate() {
            let answer = self.answer(row.0);
            if answer != row.1 || !holds(&self.edge.out, row.2) || !holds(&self.edge.notes, row.3) {
                return Some(i);
            }
        }
        None
    }
}

/// The byte at this place of those that count up.
fn counted(at: u32) -> u8 {
    (at % 251) as u8
}

/// Whether a sink holds just the first so many bytes that count up.
fn holds(sink: &MemSink, bytes: usize) -> bool {
    let held = sink.bytes();
    for (i, b) in held.iter().enumerate() {
        if *b != (i % 251) as u8 {
            return false;
        }
    }
    held.len() == bytes
}

/// A call, its answer, and how many bytes the output and the notes hold then.
type MoveRow = (MoveCall, Answer, usize, usize);

/// Rows over the input `abc`, where these reads and writes fail.
struct MoveScript {
    read_fails: &'static [u64],
    write_fails: &'static [u64],
    note_fails: &'static [u64],
    rows: &'static [MoveRow],
}

const MOVES: &[MoveScript] = &[
    MoveScript {
        read_fails: &[],
        write_fails: &[],
        note_fails: &[],
        rows: &[
            (MoveCall::Print(4_095), Answer::Done, 0, 0),
            (MoveCall::Print(1), Answer::Done, 4_096, 0),
            (MoveCall::Print(1), Answer::Done, 4_096, 0),
            (MoveCall::Flush, Answer::Done, 4_097, 0),
            (MoveCall::Flush, Answer::Done, 4_097, 0),
        ],
    },
    MoveScript {
        read_fails: &[],
        write_fails: &[],
        note_fails: &[],
        rows: &[
            (MoveCall::Note(4_095), Answer::Done, 0, 0),
            (MoveCall::Note(1), Answer::Done, 0, 4_096),
            (MoveCall::Note(1), Answer::Done, 0, 4_096),
            (MoveCall::Flush, Answer::Done, 0, 4_097),
        ],
    },
    MoveScript {
        read_fails: &[],
        write_fails: &[1],
        note_fails: &[],
        rows: &[
            (MoveCall::Print(9_000), Answer::NoWrite, 0, 0),
            (MoveCall::Flush, Answer::Done, 0, 0),
        ],
    },
    MoveScript {
        read_fails: &[],
        write_fails: &[2],
        note_fails: &[],
        rows: &[
            (MoveCall::Print(9_000), Answer::NoWrite, 4_096, 0),
            (MoveCall::Flush, Answer::Done, 4_096, 0),
        ],
    },
    MoveScript {
        read_fails: &[],
        write_fails: &[3],
        note_fails: &[],
        rows: &[
            (MoveCall::Print(9_000), Answer::Done, 8_192, 0),
            (MoveCall::Flush, Answer::NoWrite, 8_192, 0),
            (MoveCall::Flush, Answer::Done, 8_192, 0),
        ],
    },
    MoveScript {
        read_fails: &[],
        write_fails: &[],
        note_fails: &[1],
        rows: &[
            (MoveCall::Note(5_000), Answer::NoWrite, 0, 0),
            (MoveCall::Flush, Answer::Done, 0, 0),
        ],
    },
    MoveScript {
        read_fails: &[],
        write_fails: &[],
        note_fails: &[2],
        rows: &[
            (MoveCall::Note(5_000), Answer::Done, 0, 4_096),
            (MoveCall::Flush, Answer::NoWrite, 0, 4_096),
            (MoveCall::Flush, Answer::Done, 0, 4_096),
        ],
    },
    // Notes are written though the output fails.
    MoveScript {
        read_fails: &[],
        write_fails: &[1],
        note_fails: &[],
        rows: &[
            (MoveCall::Note(1), Answer::Done, 0, 0),
            (MoveCall::Print(1), Answer::Done, 0, 0),
            (MoveCall::Flush, Answer::NoWrite, 0, 1),
        ],
    },
    MoveScript {
        read_fails: &[],
        write_fails: &[],
        note_fails: &[],
        rows: &[
            (MoveCall::Look, Answer::Byte(Some(b'a')), 0, 0),
            (MoveCall::Taken, Answer::Number(0), 0, 0),
            (MoveCall::Next, Answer::Byte(Some(b'a')), 0, 0),
            (MoveCall::Taken, Answer::Number(1), 0, 0),
            (MoveCall::Next, Answer::Byte(Some(b'b')), 0, 0),
            (MoveCall::Next, Answer::Byte(Some(b'c')), 0, 0),
            (MoveCall::Next, Answer::Byte(None), 0, 0),
            (MoveCall::Next, Answer::Byte(None), 0, 0),
            (MoveCall::Taken, Answer::Number(3), 0, 0),
        ],
    },
    // What waits is written before the read that fails.
    MoveScript {
        read_fails: &[2],
        write_fails: &[],
        note_fails: &[],
        rows: &[
            (MoveCall::Next, Answer::Byte(Some(b'a')), 0, 0),
            (MoveCall::Print(1), Answer::Done, 0, 0),
            (MoveCall::Next, Answer::NoRead, 1, 0),
            (MoveCall::Taken, Answer::Number(1), 1, 0),
            (MoveCall::Next, Answer::Byte(Some(b'b')), 1, 0),
        ],
    },
    MoveScript {
        read_fails: &[],
        write_fails: &[1],
        note_fails: &[],
        rows: &[
            (MoveCall::Print(1), Answer::Done, 0, 0),
            (MoveCall::Next, Answer::NoWrite, 0, 0),
            (MoveCall::Taken, Answer::Number(0), 0, 0),
            (MoveCall::Next, Answer::Byte(Some(b'a')), 0, 0),
        ],
    },
    // The eleventh byte is an end of line.
    MoveScript {
        read_fails: &[],
        write_fails: &[],
        note_fails: &[],
        rows: &[
            (MoveCall::Column, Answer::Number(0), 0, 0),
            (MoveCall::Print(10), Answer::Done, 0, 0),
            (MoveCall::Column, Answer::Number(10), 0, 0),
            (MoveCall::Print(1), Answer::Done, 0, 0),
            (MoveCall::Column, Answer::Number(0), 0, 0),
            (MoveCall::Print(3), Answer::Done, 0, 0),
            (MoveCall::Flush, Answer::Done, 14, 0),
            (MoveCall::Column, Answer::Number(3), 14, 0),
        ],
    },
];

/// The objects around a world of a script.
fn edge_of(rt: &HostRuntime, script: &MoveScript) -> Result<Edge, Fail> {
    Ok(Edge::new(
        rt,
        (b"abc", script.read_fails),
        (10_000, script.write_fails),
        (10_000, script.note_fails),
    )?)
}

/// The first row of a script that fails.
fn wrong_move(rt: &HostRuntime, script: &MoveScript) -> Result<Option<usize>, Fail> {
    let edge = edge_of(rt, script)?;
    let world = opening(rt)?;
    let mut run = Run { world, edge, at: 0 };
    Ok(run.first_wrong(script.rows))
}

/// The first script that fails, and its row.
fn first_wrong_move(
    rt: &HostRuntime,
    scripts: &[MoveScript],
) -> Result<Option<(usize, usize)>, Fail> {
    for (i, script) in scripts.iter().enumerate() {
        if let Some(row) = wrong_move(rt, script)? {
            return Ok(Some((i, row)));
        }
    }
    Ok(None)
}

#[test]
fn bytes_move_as_the_scripts_say(rt: HostRuntime) -> Result<(), Fail> {
    assert_eq!(rt; first_wrong_move(&rt, MOVES)?, None);
    Ok(())
}

/// Takes turns until a stop.
fn take_turns(world: &mut World, turns: u32) -> Result<(), Stop> {
    for _ in 0..turns {
        world.tick()?;
    }
    Ok(())
}

/// Opens an expansion, where fewer than 10 are open.
fn begin(world: &mut World, of: Macro) -> Answer {
    if world.expansions() >= 10 {
        return Answer::Barred;
    }
    world.begin_expansion(name_of(of));
    Answer::Done
}

/// Ends the newest expansion, where there is one.
fn end(world: &mut World) -> Answer {
    if !world.in_expansion() {
        return Answer::Barred;
    }
    world.end_expansion();
    Answer::Done
}

/// Leaves levels, where no walk has entered them.
fn leave(world: &mut World, levels: u32) -> Answer {
    if world.walk_len() > 0 || levels > world.level() {
        return Answer::Barred;
    }
    world.leave_level(levels);
    Answer::Done
}

/// The newest words of a walk, where there are some.
fn pop(world: &mut World) -> Answer {
    if world.walk_len() == 0 {
        return Answer::Barred;
    }
    let (a, b, c) = world.walk_pop();
    Answer::Words(a, b, c)
}

/// Makes this the line length, where it may be.
fn set_line(world: &mut World, bytes: u64) -> Answer {
    if bytes < 1 || bytes > 1_000_000 {
        return Answer::Barred;
    }
    world.set_line_length(bytes);
    Answer::Number(world.line_length())
}

/// Makes a string of 17 bytes, and tells the cells that are used then.
fn string(world: &mut World) -> Answer {
    match world.cells.string(b"a string of bytes") {
        Ok(_) => Answer::Number(u64::from(world.cells.used())),
        Err(_) => Answer::NoCells,
    }
}

fn count(world: &mut World, call: CountCall) -> Answer {
    match call {
        CountCall::Tick(turns) => ended(take_turns(world, turns)),
        CountCall::Turns => Answer::Number(world.turns()),
        CountCall::Room(cost) => ended(world.room(cost)),
        CountCall::String => string(world),
        CountCall::Begin(of) => begin(world, of),
        CountCall::End => end(world),
        CountCall::Expansions => Answer::Number(u64::from(world.expansions())),
        CountCall::Enter(levels) => ended(world.enter_level(levels)),
        CountCall::Leave(levels) => leave(world, levels),
        CountCall::Level => Answer::Number(u64::from(world.level())),
        CountCall::Push(a, b, c) => ended(world.walk_push(a, b, c)),
        CountCall::Pop => pop(world),
        CountCall::Walks => Answer::Number(world.walk_len()),
        CountCall::Line => Answer::Number(world.line_length()),
        CountCall::SetLine(bytes) => set_line(world, bytes),
    }
}

/// The first row that fails.
fn first_wrong(world: &mut World, rows: &[(CountCall, Answer)]) -> Option<usize> {
    for (i, row) in rows.iter().enumerate() {
        if count(world, row.0) != row.1 {
            return Some(i);
        }
    }
    None
}

/// Rows over a world in opening, or after it.
struct CountScript {
    is_opened: bool,
    rows: &'static [(CountCall, Answer)],
}

const COUNTS: &[CountScript] = &[
    CountScript {
        is_opened: false,
        rows: &[
            (CountCall::String, Answer::Number(0)),
            (CountCall::Tick(1_000_000), Answer::Done),
            (CountCall::Turns, Answer::Number(0)),
            (CountCall::Tick(1), Answer::NoTurns),
        ],
    },
    CountScript {
        is_opened: true,
        rows: &[
            (CountCall::Tick(3), Answer::Done),
            (CountCall::Tick(1), Answer::NoTurns),
            (CountCall::Turns, Answer::Number(3)),
        ],
    },
    // An expansion has 100,000 turns of its own, with those within it.
    CountScript {
        is_opened: true,
        rows: &[
            (CountCall::Begin(Macro::Outer), Answer::Done),
            (CountCall::Tick(5), Answer::Done),
            (CountCall::Begin(Macro::Inner), Answer::Done),
            (CountCall::Expansions, Answer::Number(2)),
            (CountCall::Tick(99_995), Answer::Done),
            (CountCall::Tick(1), Answer::Expanded(Macro::Outer)),
            (CountCall::End, Answer::Done),
            (CountCall::Tick(1), Answer::Expanded(Macro::Outer)),
            (CountCall::End, Answer::Done),
            (CountCall::End, Answer::Barred),
            (CountCall::Turns, Answer::Number(0)),
            (CountCall::Tick(3), Answer::Done),
            (CountCall::Tick(1), Answer::NoTurns),
        ],
    },
    CountScript {
        is_opened: true,
        rows: &[
            (CountCall::String, Answer::Number(3)),
            (CountCall::Room(7), Answer::Done),
            (CountCall::Room(8), Answer::NoCells),
            (CountCall::Room(u32::MAX), Answer::NoCells),
        ],
    },
    // An expansion has 1,000,000 cells, and the run no more for it.
    CountScript {
        is_opened: true,
        rows: &[
            (CountCall::Begin(Macro::Outer), Answer::Done),
            (CountCall::Room(11), Answer::NoCells),
            (CountCall::Room(1_000_001), Answer::Expanded(Macro::Outer)),
            (CountCall::Room(10), Answer::Done),
            (CountCall::Room(999_990), Answer::NoCells),
            (CountCall::Room(999_991), Answer::Expanded(Macro::Outer)),
        ],
    },
    CountScript {
        is_opened: true,
        rows: &[
            (CountCall::Enter(5), Answer::TooDeep),
            (CountCall::Level, Answer::Number(0)),
            (CountCall::Enter(3), Answer::Done),
            (CountCall::Enter(2), Answer::TooDeep),
            (CountCall::Enter(1), Answer::Done),
            (CountCall::Enter(1), Answer::TooDeep),
            (CountCall::Level, Answer::Number(4)),
            (CountCall::Leave(3), Answer::Done),
            (CountCall::Level, Answer::Number(1)),
        ],
    },
    // Walks give the newest words first.
    CountScript {
        is_opened: true,
        rows: &[
            (CountCall::Enter(1), Answer::Done),
            (CountCall::Push(1, 2, 3), Answer::Done),
            (CountCall::Push(4, 5, 6), Answer::Done),
            (CountCall::Push(7, 8, 9), Answer::Done),
            (CountCall::Push(0, 0, 0), Answer::TooDeep),
            (CountCall::Level, Answer::Number(4)),
            (CountCall::Leave(2), Answer::Barred),
            (CountCall::Pop, Answer::Words(7, 8, 9)),
            (CountCall::Pop, Answer::Words(4, 5, 6)),
            (CountCall::Walks, Answer::Number(1)),
            (CountCall::Level, Answer::Number(2)),
            (CountCall::Pop, Answer::Words(1, 2, 3)),
            (CountCall::Level, Answer::Number(1)),
        ],
    },
    CountScript {
        is_opened: false,
        rows: &[
            (CountCall::Line, Answer::Number(80)),
            (CountCall::SetLine(1), Answer::Number(1)),
            (CountCall::SetLine(1_000_000), Answer::Number(1_000_000)),
        ],
    },
];

/// The first row of a script that fails.
fn wrong_count(rt: &HostRuntime, script: &CountScript) -> Result<Option<usize>, Fail> {
    let mut world = world(rt, script.is_opened)?;
    Ok(first_wrong(&mut world, script.rows))
}

/// The first script that fails, and its row.
fn first_wrong_count(
    rt: &HostRuntime,
    scripts: &[CountScript],
) -> Result<Option<(usize, usize)>, Fail> {
    for (i, script) in scripts.iter().enumerate() {
        if let Some(row) = wrong_count(rt, script)? {
            return Ok(Some((i, row)));
        }
    }
    Ok(None)
}

#[test]
fn counts_go_as_the_scripts_say(rt: HostRuntime) -> Result<(), Fail> {
    assert_eq!(rt; first_wrong_count(&rt, COUNTS)?, None);
    Ok(())
}

/// What can be set aside: turns, levels, expansions and walks.
fn told(world: &World) -> [u64; 4] {
    [
        world.turns(),
        u64::from(world.level()),
        u64::from(world.expansions()),
        world.walk_len(),
    ]
}

/// Opens an expansion, enters three levels, and counts apart. What is told before, at the start, at the end and afterwards.
fn count_apart(world: &mut World) -> [[u64; 4]; 4]
    requires closed { world.old.counts.open_count ≡ 0 }
    requires together { world.old.counts.aside ≡ None }
    requires walk { world.old.levels.walk ≡ [] }
{
    world.begin_expansion(T);
    let _entered = world.enter_level(3);
    let before = told(world);
    let apart = world.apart();
    let start = told(world);
    let _turn = world.tick();
    let _pushed = world.walk_push(1, 2, 3);
    let end = told(world);
    world.rejoin(apart);
    [before, start, end, told(world)]
}

/// Asks for room, and leaves what is set aside.
fn ask(world: &mut World, cost: u32) -> Result<(), Stop>
    ensures counts { world.new.counts.aside ≡ world.old.counts.aside }
    ensures levels { world.new.levels ≡ world.old.levels }
{
    world.room(cost)
}

/// Asks for the most cells apart, and for as many as an expansion has, for one more, and afterwards for one past the bound.
fn rooms_apart(world: &mut World) -> [Result<(), Stop>; 4]
    requires closed { world.old.counts.open_count ≡ 0 }
    requires together { world.old.counts.aside ≡ None }
    requires walk { world.old.levels.walk ≡ [] }
{
    let apart = world.apart();
    let free = world.room(u32::MAX);
    world.begin_expansion(T);
    let most = ask(world, 1_000_000);
    let past = ask(world, 1);
    world.rejoin(apart);
    [free, most, past, world.room(11)]
}

#[test]
fn what_is_set_aside_comes_back(rt: HostRuntime) -> Result<(), Fail> {
    let mut world = opening(&rt)?;
    world.opened();
    let told = count_apart(&mut world);
    assert_eq!(rt;
        told,
        [[0, 3, 1, 0], [0, 0, 0, 0], [1, 1, 0, 1], [0, 3, 1, 0]]
    );
    Ok(())
}

#[test]
fn no_cells_of_the_run_are_counted_apart(rt: HostRuntime) -> Result<(), Fail> {
    let mut world = opening(&rt)?;
    world.opened();
    let rooms = rooms_apart(&mut world);
    assert_eq!(rt;
        rooms,
        [Ok(()), Ok(()), Err(Stop::Expansion(T)), Err(Stop::Cells)]
    );
    Ok(())
}

/// Notes a byte and prints one, and writes both.
fn note_and_print<I: Source, O: Sink, N: Sink, F: Files>(
    world: &mut World,
    io: &mut Io<'_, I, O, N, F>,
) -> Result<(), Stop>
    ensures same_out { io.new.out.ghost_name ≡ io.old.out.ghost_name }
    ensures same_notes { io.new.notes.ghost_name ≡ io.old.notes.ghost_name }
{
    world.note_byte(b'y', io)?;
    world.put_byte(b'x', io)?;
    world.flush(io)
}

/// A sink that keeps when it was written to last, by a clock that all such sinks have together.
#[derive(Drop)]
struct Stamped<'a> {
    clock: &'a Cell<u32>,
    at: u32,
}

impl Sink for Stamped<'_> {
    ghost faults = { λ _. 0 };

    ghost contents = { λ _. None };

    fn write(&mut self, _piece: &[u8]) -> Result<(), Failed> {
        self.at = self.clock.get();
        self.clock.set(self.at.saturating_add(1));
        Ok(())
    }
}

/// How writing ends, when the output was written, and when the notes.
fn times_of_writing(
    world: &mut World,
    input: &mut MemSource,
    files: &mut MemFiles,
) -> (Result<(), Stop>, u32, u32) {
    let clock = Cell::new(1);
    let mut out = Stamped {
        clock: &clock,
        at: 0,
    };
    let mut notes = Stamped {
        clock: &clock,
        at: 0,
    };
    let mut io = Io {
        input,
        out: &mut out,
        notes: &mut notes,
        files,
    };
    let end = note_and_print(world, &mut io);
    (end, out.at, notes.at)
}

/// These times in a world of opening.
fn times_in_opening(rt: &HostRuntime) -> Result<(Result<(), Stop>, u32, u32), Fail> {
    let (mut input, mut files) = sources(rt, b"", &[])?;
    let mut world = opening(rt)?;
    Ok(times_of_writing(&mut world, &mut input, &mut files))
}

#[test]
fn the_output_is_written_before_the_notes(rt: HostRuntime) -> Result<(), Fail> {
    assert_eq!(rt; times_in_opening(&rt)?, (Ok(()), 1, 2));
    Ok(())
}

/// Whether the text of an error has these bytes.
fn has_text(world: &World, n: u8, bytes: &[u8]) -> bool
    requires { AreTexts world.now.cells.cells world.now.texts 14 }
{
    if n < 10 || n > 23 {
        return false;
    }
    let text = world.error_text(n);
    let length = world.cells.string_len(text);
    if length as usize != bytes.len() {
        return false;
    }
    for i in 0..length {
        if world.cells.string_byte(text, i) != bytes[i as usize] {
            return false;
        }
    }
    true
}

/// An error, and the bytes of its text.
type TextRow = (u8, &'static [u8]);

const ERROR_TEXTS: &[TextRow] = &[
    (10, b"is unbound"),
    (13, b"is of a wrong type"),
    (23, b"is the byte where the text is unreadable"),
];

/// The first error whose text is another.
fn first_wrong_text(world: &World, rows: &[TextRow]) -> Option<u8>
    requires { AreTexts world.now.cells.cells world.now.texts 14 }
{
    for (n, bytes) in rows {
        if !has_text(world, *n, bytes) {
            return Some(*n);
        }
    }
    None
}

#[test]
fn errors_have_their_texts(rt: HostRuntime) -> Result<(), Fail> {
    let world = opening(&rt)?;
    assert_eq!(rt; first_wrong_text(&world, ERROR_TEXTS), None);
    Ok(())
}
