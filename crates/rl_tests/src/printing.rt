//! Values printed to objects in memory: tables of how each is made, and of the text that comes by PRIN1 and by PRIN2.
ghost use Rattle.std.specs.Prelude.{◌≡◌, IfOk, IsTrue};
ghost use Rattle.rl_cells.specs.Cell.{is_wide};
ghost use Rattle.rl_syms.specs.Table.{IsTable};

use crate::edge::Edge;
use rl_io::Io;
use rl_print::{Style, print1, print2};
use rl_syms::laws::{others_leave_identifiers, table_is_kept};
use rl_tags::{NIL, Tag, Val};
use rl_world::{Limits, Stop, World};
use std::marker::Model;
use std::test::Fail;

/// What makes a value.
enum Step {
    Small(i8),
    /// The least integer of 128 bits.
    Least,
    /// The greatest one.
    Greatest,
    Name(&'static [u8]),
    /// A string.
    Text(&'static [u8]),
    /// The value is held until the next one is.
    Hold,
    /// The value is what is held.
    Held,
    /// A pair of what is held and the value.
    Pair,
    /// A pair of this integer and the value.
    Before(i8),
    /// A list of the value, a list of that, and so on, so many times.
    Nest(u32),
    /// The CDR of the pair that is held becomes the value.
    SetCdr,
    /// A vector of so many NIL is held.
    Vector(u32),
    /// The value is put at this place of the vector that is held.
    Put(u32),
}

/// Texts, each so many times.
type Pieces = &'static [(&'static [u8], usize)];

/// How a value is made, and its text by PRIN1 and by PRIN2.
type Texts = (&'static [Step], &'static [u8], &'static [u8]);

const TEXTS: &[Texts] = &[
    (&[Step::Name(b"NIL")], b"NIL", b"NIL"),
    (&[Step::Name(b"a1_+")], b"!a1_!+", b"a1_+"),
    (&[Step::Name(b"1A")], b"!1A", b"1A"),
    (&[Step::Name(b"_A")], b"!_A", b"_A"),
    (&[Step::Name(b"A B")], b"A! B", b"A B"),
    (&[Step::Name(b"A\n\xe9!")], b"A!\n\xe9!!", b"A\n\xe9!"),
    (&[Step::Text(b"ab")], b"\"ab\"", b"ab"),
    (&[Step::Text(b"a\"b")], b"\"a\"\"b\"", b"a\"b"),
    (&[Step::Text(b"\"")], b"\"\"\"\"", b"\""),
    (&[Step::Text(b"!\n")], b"\"!\n\"", b"!\n"),
    (
        &[Step::Least],
        b"-170141183460469231731687303715884105728",
        b"-170141183460469231731687303715884105728",
    ),
    (
        &[Step::Greatest],
        b"170141183460469231731687303715884105727",
        b"170141183460469231731687303715884105727",
    ),
    (&[Step::Small(-10)], b"-10", b"-10"),
    (&[Step::Small(4)], b"4", b"4"),
    (&[Step::Small(2), Step::Before(1)], b"(1 . 2)", b"(1 . 2)"),
    (
        &[Step::Small(-2), Step::Nest(1), Step::Before(1)],
        b"(1 -2)",
        b"(1 -2)",
    ),
    (
        &[Step::Small(3), Step::Before(2), Step::Before(1)],
        b"(1 2 . 3)",
        b"(1 2 . 3)",
    ),
    (NESTED, b"((1 2) . 3)", b"((1 2) . 3)"),
    (&[Step::Vector(0), Step::Held], b"[]", b"[]"),
    (&[Step::Vector(1), Step::Held], b"[NIL]", b"[NIL]"),
    (
        &[Step::Vector(3), Step::Held],
        b"[NIL NIL NIL]",
        b"[NIL NIL NIL]",
    ),
    (
        &[
            Step::Name(b"X"),
            Step::Hold,
            Step::Name(b"y"),
            Step::Pair,
            Step::Vector(3),
            Step::Put(2),
            Step::Text(b"a\"b"),
            Step::Put(1),
            Step::Small(1),
            Step::Put(0),
            Step::Held,
        ],
        b"[1 \"a\"\"b\" (X . !y)]",
        b"[1 a\"b (X . y)]",
    ),
    (&[Step::Name(b"A+"), Step::Nest(1)], b"(A!+)", b"(A+)"),
    (THREE, b"(100 101 102)", b"(100 101 102)"),
];

/// `((1 2) . 3)`.
const NESTED: &[Step] = &[
    Step::Small(2),
    Step::Nest(1),
    Step::Before(1),
    Step::Hold,
    Step::Small(3),
    Step::Pair,
];

/// `(100 101 102)`.
const THREE: &[Step] = &[
    Step::Small(102),
    Step::Nest(1),
    Step::Before(101),
    Step::Before(100),
];

/// Elements of a vector, which fill a line.
const LINE: &[u8] =
    b"NIL NIL NIL NIL NIL NIL NIL NIL NIL NIL NIL NIL NIL NIL NIL NIL NIL NIL NIL NIL \n";

/// What bounds a run: its turns, or None in opening, its levels, the length of lines, and which writes fail.
type Bounds = (Option<u64>, u32, u64, &'static [u64]);

/// How a value is made, what bounds the run, how printing by PRIN1 ends, and what has come to the output.
type End = (&'static [Step], Bounds, Result<(), Stop>, Pieces);

const ENDS: [End; 12] = [
    (THREE, (None, 10, 12, &[]), Ok(()), &[(b"(100 101 102)", 1)]),
    (
        THREE,
        (None, 10, 11, &[]),
        Ok(()),
        &[(b"(100 101 \n102)", 1)],
    ),
    (
        THREE,
        (None, 10, 2, &[]),
        Ok(()),
        &[(b"(\n100 \n101 \n102)", 1)],
    ),
    (NESTED, (Some(0), 1, 80, &[]), Err(Stop::Turns), &[]),
    (
        NESTED,
        (Some(1), 1, 80, &[]),
        Err(Stop::Turns),
        &[(b"(", 1)],
    ),
    (
        NESTED,
        (Some(2), 1, 80, &[]),
        Err(Stop::Turns),
        &[(b"((1", 1)],
    ),
    (
        NESTED,
        (Some(4), 0, 80, &[]),
        Err(Stop::Depth),
        &[(b"(", 1)],
    ),
    (
        NESTED,
        (Some(4), 1, 80, &[]),
        Ok(()),
        &[(b"((1 2) . 3)", 1)],
    ),
    (
        &[Step::Vector(2_500), Step::Held],
        (None, 10, 80, &[1]),
        Err(Stop::Write),
        &[],
    ),
    (
        &[Step::Vector(2_500), Step::Held],
        (None, 10, 80, &[2]),
        Err(Stop::Write),
        &[(b"[", 1), (LINE, 50), (b"NIL ", 11), (b"N", 1)],
    ),
    (
        &[Step::Name(b"NIL"), Step::Nest(60_000)],
        (Some(100_000), 50_000, 80, &[]),
        Err(Stop::Depth),
        &[(b"(", 50_001)],
    ),
    // Forty elements stand in a line, so the next one begins a line.
    (
        &[Step::Small(7), Step::Nest(1), Step::Hold, Step::SetCdr],
        (Some(50), 0, 80, &[]),
        Err(Stop::Turns),
        &[(b"(", 1), (b"7 ", 40), (b"\n", 1), (b"7 ", 9), (b"7", 1)],
    ),
];

/// A world with the objects around it, the value that was made last, and the one that is held.
#[derive(Drop)]
struct Bench {
    world: World,
    value: Val,
    held: Val,
    edge: Edge,
}

impl Model for Bench {
    ghost use Rattle.std.specs.Prelude.{IsTrue};
    ghost use Rattle.rl_cells.specs.Cell.{is_live};
    ghost use Rattle.rl_syms.specs.Table.{IsTable};

    ghost Value = { Unit {0} };

    ghost view = { λ _. tt };

    ghost invariant = { λ a. IsTable a.world.cells.cells a.world.syms.head × IsTrue (is_live a.world.cells.cells a.value) × IsTrue (is_live a.world.cells.cells a.held) };
}

/// A world in opening, or, where turns are given, one of a run.
fn world_within(rt: &HostRuntime, turns: Option<u64>, nest: u32) -> Result<World, Fail>
    ensures table { IfOk result (λ w. IsTable w.cells.cells w.syms.head) }
{
    if nest > 50_000 {
        return Err(Fail::new("many levels"));
    }
    let limits = Limits {
        turns: turns.unwrap_or(0),
        cells: 70_000,
        nest,
    };
    let mut world = World::open(rt.alloc(), limits)?;
    if turns.is_some() {
        world.opened();
    }
    Ok(world)
}

/// Makes this the line length, where it is short enough. Whether it is.
fn set_line(world: &mut World, line: u64) -> bool
    ensures cells { world.new.cells ≡ world.old.cells }
    ensures names { world.new.syms ≡ world.old.syms }
{
    if line == 0 || line > 1_000 {
        return false;
    }
    world.set_line_length(line);
    true
}

impl Bench {
    fn new(rt: &HostRuntime, bounds: &Bounds) -> Result<Bench, Fail> {
        let edge = Edge::new(rt, (b"", &[]), (60_000, bounds.3), (0, &[]))?;
        let mut world = world_within(rt, bounds.0, bounds.1)?;
        if !set_line(&mut world, bounds.2) {
            return Err(Fail::new("lines of no such length"));
        }
        Ok(Bench {
            world,
            value: Val::small(0),
            held: Val::small(0),
            edge,
        })
    }

    /// Makes a value. Whether there was room, and each step had what it needs.
    fn make(&mut self, steps: &[Step]) -> bool {
        for step in steps {
            if !self.step(step) {
                return false;
            }
        }
        true
    }

    fn step(&mut self, step: &Step) -> bool {
        match step {
            Step::Small(n) => self.small(*n),
            Step::Least => self.wide(i128::MIN),
            Step::Greatest => self.wide(i128::MAX),
            Step::Name(name) => self.name(name),
            Step::Text(bytes) => self.text(bytes),
            Step::Hold => self.hold(),
            Step::Held => self.take_held(),
            Step::Pair => self.pair(),
            Step::Before(n) => self.before(*n),
            Step::Nest(times) => self.nest(*times),
            Step::SetCdr => self.set_cdr(),
            Step::Vector(places) => self.vector(*places),
            Step::Put(i) => self.put(*i),
        }
    }

    fn small(&mut self, n: i8) -> bool {
        self.value = Val::small(i64::from(n));
        true
    }

    fn hold(&mut self) -> bool {
        self.held = self.value;
        true
    }

    fn take_held(&mut self) -> bool {
        self.value = self.held;
        true
    }

    fn name(&mut self, name: &[u8]) -> bool {
        if name.is_empty() || name.len() > 255 {
            return false;
        }
        match self.world.syms.intern(&mut self.world.cells, name) {
            Ok(id) => {
                self.value = id;
                true
            }
            Err(_) => false,
        }
    }

    fn wide(&mut self, n: i128) -> bool
        requires { IsTrue (is_wide n) }
    {
        table_is_kept();
        others_leave_identifiers();
        match self.world.cells.big(n) {
            Ok(v) => {
                self.value = v;
                true
            }
            Err(_) => false,
        }
    }

    fn text(&mut self, bytes: &[u8]) -> bool {
        if bytes.len() > 1_000 {
            return false;
        }
        table_is_kept();
        others_leave_identifiers();
        match self.world.cells.string(bytes) {
            Ok(v) => {
                self.value = v;
                true
            }
            Err(_) => false,
        }
    }

    fn pair(&mut self) -> bool {
        table_is_kept();
        others_leave_identifiers();
        match self.world.cells.cons(self.held, self.value) {
            Ok(v) => {
                self.value = v;
                true
            }
            Err(_) => false,
        }
    }

    fn before(&mut self, n: i8) -> bool {
        self.held = Val::small(i64::from(n));
        self.pair()
    }

    fn nest(&mut self, times: u32) -> bool {
        for _ in 0..times {
            if !self.enclose() {
                return false;
            }
        }
        true
    }

    /// A list of the value.
    fn enclose(&mut self) -> bool {
        self.held = self.value;
        self.value = NIL;
        self.pair()
    }

    fn set_cdr(&mut self) -> bool {
        if self.held.tag() != Tag::Pair {
            return false;
        }
        table_is_kept();
        others_leave_identifiers();
        self.world.cells.set_cdr(self.held, self.value);
        true
    }

    fn vector(&mut self, places: u32) -> bool {
        if places > 10_000 {
            return false;
        }
        table_is_kept();
        others_leave_identifiers();
        match self.world.cells.vector(places) {
            Ok(v) => {
                self.held = v;
                true
            }
            Err(_) => false,
        }
    }

    fn put(&mut self, i: u32) -> bool {
        if self.held.tag() != Tag::Vector || i >= self.world.cells.vector_len(self.held) {
            return false;
        }
        table_is_kept();
        others_leave_identifiers();
        self.world.cells.put(self.held, i, self.value);
        true
    }

    /// Prints the value, and then writes what waits. The first stop is the answer.
    fn print(&mut self, style: Style) -> Result<(), Stop> {
        let printed = match style {
            Style::Prin1 => self.prin1(),
            Style::Prin2 => self.prin2(),
        };
        let flushed = self.flush();
        match printed {
            Ok(()) => flushed,
            Err(stop) => Err(stop),
        }
    }

    fn prin1(&mut self) -> Result<(), Stop> {
        let io = &mut Io {
            input: &mut self.edge.input,
            out: &mut self.edge.out,
            notes: &mut self.edge.notes,
            files: &mut self.edge.files,
        };
        print1(&mut self.world, self.value, io)
    }

    fn prin2(&mut self) -> Result<(), Stop> {
        let io = &mut Io {
            input: &mut self.edge.input,
            out: &mut self.edge.out,
            notes: &mut self.edge.notes,
            files: &mut self.edge.files,
        };
        print2(&mut self.world, self.value, io)
    }

    fn flush(&mut self) -> Result<(), Stop> {
        let io = &mut Io {
            input: &mut self.edge.input,
            out: &mut self.edge.out,
            notes: &mut self.edge.notes,
            files: &mut self.edge.files,
        };
        self.world.flush(io)
    }

    fn print_name(&mut self, b: u8) -> bool {
        self.name(&[b]) && self.print(Style::Prin1).is_ok() && self.print(Style::Prin2).is_ok()
    }

    fn bytes(&self) -> &[u8] {
        self.edge.out.bytes()
    }
}

/// Makes a value within these bounds and prints it. Whether it ends so, with these bytes in the output.
fn prints(
    rt: &HostRuntime,
    steps: &[Step],
    bounds: &Bounds,
    style: Style,
    end: Result<(), Stop>,
    text: &[u8],
) -> Result<bool, Fail> {
    let mut bench = Bench::new(rt, bounds)?;
    Ok(bench.make(steps) && bench.print(style) == end && bench.bytes() == text)
}

/// The bytes of texts.
fn bytes_of(rt: &HostRuntime, pieces: Pieces) -> Result<Vec<u8>, Fail> {
    let mut bytes = Vec::new(rt.alloc());
    for (text, times) in pieces {
        for _ in 0..*times {
            bytes.extend_from_slice(text)?;
        }
    }
    Ok(bytes)
}

/// The number of the first row that says otherwise.
fn other_text(rt: &HostRuntime, rows: &[Texts]) -> Result<Option<usize>, Fail> {
    for i in 0..rows.len() {
        let (steps, prin1, prin2) = &rows[i];
        let bounds: &Bounds = &(None, 10, 80, &[]);
        if !prints(rt, steps, bounds, Style::Prin1, Ok(()), prin1)?
            || !prints(rt, steps, bounds, Style::Prin2, Ok(()), prin2)?
        {
            return Ok(Some(i));
        }
    }
    Ok(None)
}

#[test]
fn values_have_their_texts(rt: HostRuntime) -> Result<(), Fail> {
    assert_eq!(rt; other_text(&rt, TEXTS)?, None);
    Ok(())
}

/// Whether a row says how printing ends, and what comes to the output.
fn ends_so(rt: &HostRuntime, (steps, bounds, end, pieces): &End) -> Result<bool, Fail> {
    let text = bytes_of(rt, pieces)?;
    prints(rt, steps, bounds, Style::Prin1, *end, text.as_slice())
}

/// The number of the first row that says otherwise.
fn other_end(rt: &HostRuntime, rows: &[End]) -> Result<Option<usize>, Fail> {
    for i in 0..rows.len() {
        if !ends_so(rt, &rows[i])? {
            return Ok(Some(i));
        }
    }
    Ok(None)
}

#[test]
fn printing_ends_as_it_says(rt: HostRuntime) -> Result<(), Fail> {
    assert_eq!(rt; other_end(&rt, &ENDS)?, None);
    Ok(())
}

/// Prints all names of one byte, each by PRIN1 and then by PRIN2. Whether all ends well.
fn print_names(bench: &mut Bench) -> bool {
    for b in 0..=255u8 {
        if !bench.print_name(b) {
            return false;
        }
    }
    true
}

/// The texts of all names of one byte, each by PRIN1 and then by PRIN2.
fn texts_of_names(rt: &HostRuntime) -> Result<Vec<u8>, Fail> {
    let mut text = Vec::new(rt.alloc());
    for b in 0..=255u8 {
        if !b.is_ascii_uppercase() && b < 128 {
            text.push(b'!')?;
        }
        text.extend_from_slice(&[b, b])?;
    }
    Ok(text)
}

/// Whether the names of one byte are printed as this text.
fn names_print(rt: &HostRuntime, text: &[u8]) -> Result<bool, Fail> {
    let mut bench = Bench::new(rt, &(None, 10, 1_000, &[]))?;
    Ok(print_names(&mut bench) && bench.bytes() == text)
}

/// Names of one byte in a line, which none of them breaks.
#[test]
fn names_of_one_byte(rt: HostRuntime) -> Result<(), Fail> {
    let text = texts_of_names(&rt)?;
    assert!(rt; names_print(&rt, text.as_slice())?);
    Ok(())
}

/// Makes a string and prints it by PRIN2. Whether all ends well.
fn print_text(bench: &mut Bench, bytes: &[u8]) -> bool {
    bench.text(bytes) && bench.print(Style::Prin2).is_ok()
}

/// Whether two strings, printed in lines of 80 bytes, come to this text.
fn strings_print(rt: &HostRuntime, one: &[u8], other: &[u8], text: &[u8]) -> Result<bool, Fail> {
    let mut bench = Bench::new(rt, &(None, 10, 80, &[]))?;
    Ok(print_text(&mut bench, one) && print_text(&mut bench, other) && bench.bytes() == text)
}

/// What was printed before counts in the length of the line.
#[test]
fn a_line_of_79_and_two_more(rt: HostRuntime) -> Result<(), Fail> {
    let text = bytes_of(&rt, &[(b"x", 79), (b"\nyy", 1)])?;
    assert!(rt; strings_print(&rt, &[b'x'; 79], b"yy", text.as_slice())?);
    Ok(())
}
