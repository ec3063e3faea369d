//! Spellings, good and bad, in a world; and texts of the input, which take turns and fail: tables of texts and of what one
//! bench says of them.
ghost use Rattle.std.specs.Prelude.{◌≡◌, IsTrue};
ghost use Rattle.rl_cells.specs.Cell.{is_live, is_str};
ghost use Rattle.rl_syms.specs.Table.{IsTable};

use crate::edge::sources;
use rl_io::{Io, MemFiles, MemSource, NullSink};
use rl_read::laws::opened_worlds_make;
use rl_read::{Bytes, ReadFault, SliceBytes, read_form};
use rl_tags::{Tag, Val};
use rl_world::{Limits, Stop, World};
use std::marker::Model;
use std::test::Fail;

/// A text, and what is said of it. A pair is `p` and its parts, a vector `v`, its number of places and these; an identifier
/// is `i`, its name and `;`, a string `s`, its bytes and `;`, an integer `n`, its digits with `-` or without, and `;`. A
/// refusal is `?` and the number of bytes before it, the end `.`, and a stop its letter; a level that is not left is `@`.
/// Last stands how many bytes are left.
type Row = (&'static str, &'static str);

const ROWS: &[Row] = &[
    // Atoms.
    ("a", "iA; 0"),
    ("Ab1_z", "iAB1_Z; 0"),
    ("a b", "iA; 2"),
    ("!a", "ia; 0"),
    ("!!", "i!; 0"),
    ("a!+", "iA+; 0"),
    ("!1a", "i1A; 0"),
    ("! a", "i A; 0"),
    ("!\x00", "i\x00; 0"),
    ("a\x00", "iA; 1"),
    ("a\x7f", "iA; 1"),
    ("$", "i$; 0"),
    ("$a", "i$; 1"),
    ("&", "i&; 0"),
    ("*", "i*; 0"),
    ("+", "i+; 0"),
    (",", "i,; 0"),
    ("-", "i-; 0"),
    ("/", "i/; 0"),
    (":", "i:; 0"),
    (";a", "i;; 1"),
    ("<", "i<; 0"),
    ("=", "i=; 0"),
    (">", "i>; 0"),
    ("?", "i?; 0"),
    ("@", "i@; 0"),
    ("\\", "i\\; 0"),
    ("^", "i^; 0"),
    ("_", "i_; 0"),
    ("_a", "i_; 1"),
    ("`", "i`; 0"),
    ("{", "i{; 0"),
    ("|", "i|; 0"),
    ("}", "i}; 0"),
    ("~", "i~; 0"),
    ("#", "i#; 0"),
    ("#a", "i#; 1"),
    ("+a", "i+; 1"),
    ("+ 5", "i+; 2"),
    ("--5", "i-; 2"),
    ("+5", "n5; 0"),
    ("-5", "n-5; 0"),
    ("0", "n0; 0"),
    ("-0", "n0; 0"),
    ("007", "n7; 0"),
    ("12a", "n12; 1"),
    ("1.5", "n1; 2"),
    ("5\"", "n5; 1"),
    ("a.b", "iA; 2"),
    ("a'b", "iA; 2"),
    ("a(b", "iA; 2"),
    ("a%b", "iA; 2"),
    ("\"\"", "s; 0"),
    ("\"ab\"", "sab; 0"),
    ("\"a\"\"b\"", "sa\"b; 0"),
    ("\"\"\"\"", "s\"; 0"),
    ("\"a\"b", "sa; 1"),
    ("\"a\" \"b\"", "sa; 4"),
    ("\"a!\"b", "sa!; 1"),
    ("\"%\n\"", "s%\n; 0"),
    ("576460752303423487", "n576460752303423487; 0"),
    ("-576460752303423488", "n-576460752303423488; 0"),
    ("+576460752303423487 ", "n576460752303423487; 1"),
    ("nil", "iNIL; 0"),
    ("!N!I!L", "iNIL; 0"),
    (" \t\n\x0c\ra", "iA; 0"),
    ("%c\n %\n a", "iA; 0"),
    // Lists, vectors and quotes.
    ("()", "iNIL; 0"),
    ("( )a", "iNIL; 1"),
    ("(a)", "piA;iNIL; 0"),
    ("(a b)", "piA;piB;iNIL; 0"),
    ("(a . b)", "piA;iB; 0"),
    ("(a.b)", "piA;iB; 0"),
    ("(a b . 1)c", "piA;piB;n1; 1"),
    ("(1.5)", "pn1;n5; 0"),
    ("(a . (b c))", "piA;piB;piC;iNIL; 0"),
    ("(a . (b . (c . d)))e", "piA;piB;piC;iD; 1"),
    ("(a . ())", "piA;iNIL; 0"),
    ("((a) . (b))", "ppiA;iNIL;piB;iNIL; 0"),
    ("(())", "piNIL;iNIL; 0"),
    ("'a", "piQUOTE;piA;iNIL; 0"),
    ("''a", "piQUOTE;ppiQUOTE;piA;iNIL;iNIL; 0"),
    ("' % c\n (a)", "piQUOTE;ppiA;iNIL;iNIL; 0"),
    ("'(a . 'b)", "piQUOTE;ppiA;piQUOTE;piB;iNIL;iNIL; 0"),
    ("'[]", "piQUOTE;pv0iNIL; 0"),
    ("[]", "v0 0"),
    ("[ 1 2 ]a", "v2n1;n2; 1"),
    ("[[] [a]]", "v2v0v1iA; 0"),
    ("[(a . b) \"c\" 'd]", "v3piA;iB;sc;piQUOTE;piD;iNIL; 0"),
    ("(a . [b])", "piA;v1iB; 0"),
    ("(a . [(b . [c])] )", "piA;v1piB;v1iC; 0"),
    ("(a . '[b])", "piA;piQUOTE;pv1iB;iNIL; 0"),
    ("[1 \"a\"\"b\" (x . !y)]", "v3n1;sa\"b;piX;iy; 0"),
    ("(+ - +5 -5 +a)", "pi+;pi-;pn5;pn-5;pi+;piA;iNIL; 0"),
    ("(a\"b\"c)", "piA;psb;piC;iNIL; 0"),
    ("(a%)\n)", "piA;iNIL; 0"),
    ("(a'b[c])", "piA;ppiQUOTE;piB;iNIL;pv1iC;iNIL; 0"),
    // Refused.
    (")", "?0 0"),
    ("]", "?0 0"),
    (".", "?0 0"),
    ("  )", "?2 0"),
    ("%c\n)", "?3 0"),
    ("\x00", "?0 0"),
    ("\x7f", "?0 0"),
    ("!", "?1 0"),
    ("a!", "?2 0"),
    ("\"", "?1 0"),
    ("\"ab", "?3 0"),
    ("\"ab\"\"", "?5 0"),
    ("'", "?1 0"),
    ("' ", "?2 0"),
    ("')", "?1 0"),
    ("'.", "?1 0"),
    ("']", "?1 0"),
    ("(", "?1 0"),
    ("(a", "?2 0"),
    ("(a ", "?3 0"),
    ("(a . ", "?5 0"),
    ("(a . b", "?6 0"),
    ("(a . b ", "?7 0"),
    ("(a . b c)", "?7 1"),
    ("(a . b . c)", "?7 3"),
    ("(a .)", "?4 0"),
    ("(a . )", "?5 0"),
    ("( . a)", "?2 3"),
    ("(.", "?1 0"),
    ("(a]", "?2 0"),
    ("(a . b]", "?6 0"),
    ("(a . (b) c)", "?9 1"),
    ("(a . (b . c) d)", "?13 1"),
    ("(a . [b] c)", "?9 1"),
    ("(a . 'b c)", "?8 1"),
    ("(a . ( . b))", "?7 4"),
    ("(%)", "?3 0"),
    ("(\x00)", "?1 1"),
    ("(a\x01)", "?2 1"),
    ("[", "?1 0"),
    ("[a", "?2 0"),
    ("[a)", "?2 0"),
    ("[a . b]", "?3 3"),
    ("[.", "?1 0"),
    ("[(a]", "?3 0"),
    ("576460752303423488", "?17 0"),
    ("5764607523034234870", "?18 0"),
    ("-576460752303423489", "?18 0"),
    ("-5764607523034234880", "?19 0"),
    ("+576460752303423488", "?18 0"),
    ("(576460752303423488)", "?18 1"),
    // Blanks and comments.
    ("", ". 0"),
    (" ", ". 0"),
    ("\t\n\x0c\r ", ". 0"),
    ("%", ". 0"),
    ("%x", ". 0"),
    ("%x\n", ". 0"),
    (" %a%b\n %", ". 0"),
];

/// A text in pieces, each so many times; the cells and the levels of its world; and what is said of it, `=` for a form. Last
/// stands how many cells are used behind it.
type Long = (&'static [(&'static str, usize)], u32, u32, &'static str);

const LONG: &[Long] = &[
    (&[("a", 255), (" ", 1)], 10_000, 10, "= 20"),
    (&[("a", 256)], 10_000, 10, "?255 0"),
    (&[("a", 255), ("!b", 1)], 10_000, 10, "?255 0"),
    (&[("\"", 1), ("x", 65_535), ("\"", 1)], 10_000, 10, "= 4097"),
    (
        &[("\"", 1), ("x", 65_535), ("\"\"", 1)],
        10_000,
        10,
        "?65537 0",
    ),
    (&[("(", 60_000)], 70_000, 50_000, "D@50000 0"),
    (&[("(", 50_001), ("a", 1)], 70_000, 50_000, "?50002 1"),
    (&[("a", 1)], 10_000, 10, "= 0"),
    (&[("12", 1)], 10_000, 10, "= 0"),
    (&[("zz", 1)], 10_000, 10, "= 5"),
    (&[("\"\"", 1)], 10_000, 10, "= 1"),
    (&[("\"seventeen bytes.\"", 1)], 10_000, 10, "= 2"),
    (&[("(a . a)", 1)], 10_000, 10, "= 1"),
    (&[("(a a a)", 1)], 10_000, 10, "= 3"),
    (&[("[a a a]", 1)], 10_000, 10, "= 6"),
    (&[("[]", 1)], 10_000, 10, "= 1"),
    (&[("'a", 1)], 10_000, 10, "= 2"),
    (&[("(a [", 1)], 10_000, 10, "?4 1"),
    (&[("(a 'a)", 1)], 10_000, 10, "= 4"),
    (&[("(a a a a)", 1)], 3, 10, "C 3"),
];

/// An input, which of its reads fail, how many forms are read, and what is said of each, with the turns and the bytes that
/// were taken by then.
type Told = (&'static [u8], &'static [u64], u32, &'static [u8]);

const INPUTS: &[Told] = &[
    (
        b"(a . 1) ab c",
        &[],
        4,
        b"piA;n1; 7 7\niAB; 11 10\niC; 13 12\n. 13 12\n",
    ),
    (b"\x80\xff", &[], 1, b"i\x80\xff; 2 2\n"),
    (b"(a . 1)", &[1], 1, b"R 0 0\n"),
    (b"(a . 1)", &[2], 1, b"R 1 1\n"),
    (b"(a . 1)", &[3], 1, b"R 2 2\n"),
    (b"(a . 1)", &[4], 1, b"R 3 3\n"),
    (b"(a . 1)", &[5], 1, b"R 4 4\n"),
    (b"(a . 1)", &[6], 1, b"R 5 5\n"),
    (b"(a . 1)", &[7], 1, b"R 6 6\n"),
    (
        b"                                                                                                     a",
        &[],
        1,
        b"T 100 101\n",
    ),
];

/// Bytes that are put together. For want of memory some are left out, and then no row is right.
#[derive(Drop)]
struct Text {
    bytes: Vec<u8>,
}

impl Text {
    fn new(rt: &HostRuntime) -> Text {
        Text {
            bytes: Vec::new(rt.alloc()),
        }
    }

    fn put(&mut self, b: u8) {
        let _ = self.bytes.push(b);
    }

    /// The digits of a number.
    fn put_number(&mut self, n: u64) {
        if n >= 10 {
            self.put_number(n / 10);
        }
        self.put(b'0' + (n % 10) as u8);
    }

    /// A piece so many times.
    fn put_times(&mut self, piece: &str, times: usize) {
        for _ in 0..times {
            let _ = self.bytes.extend_from_slice(piece.as_bytes());
        }
    }
}

/// A world whose names are a table: it is given texts, and says what they spell.
#[derive(Drop)]
struct Bench {
    world: World,
}

impl Model for Bench {
    ghost use Rattle.rl_read.specs.Frames.{CanMake};

    ghost Value = { Unit {0} };

    ghost view = { λ a. tt };

    ghost invariant = { λ a. CanMake a.world };
}

impl Bench {
    /// A world of so many cells and levels, and of 100 turns, after opening.
    fn open(rt: &HostRuntime, cells: u32, nest: u32) -> Result<Bench, Fail> {
        if cells > 1_000_000 || nest > 50_000 {
            return Err(Fail::new("a large world"));
        }
        let limits = Limits {
            turns: 100,
            cells,
            nest,
        };
        opened_worlds_make();
        let mut world = World::open(rt.alloc(), limits)?;
        world.opened();
        Ok(Bench { world })
    }

    /// Says what a text spells, to this depth, or how it fails.
    fn say<T: Bytes>(&mut self, text: &mut T, depth: u32, said: &mut Text) {
        match read_form(&mut self.world, text) {
            Ok(v) => say_value(&self.world, v, depth, said),
            Err(fault) => say_fault(fault, said),
        }
        let level = self.world.level();
        if level != 0 {
            said.put(b'@');
            said.put_number(u64::from(level));
        }
    }

    /// Says what a text spells, and the turns and the bytes that were taken.
    fn say_counted<T: Bytes>(&mut self, text: &mut T, said: &mut Text) {
        self.say(text, 100, said);
        said.put(b' ');
        said.put_number(self.world.turns());
        said.put(b' ');
        said.put_number(self.world.taken());
        said.put(b'\n');
    }

    /// Whether a text gives a byte.
    fn gives(&mut self, text: &mut SliceBytes<'_>) -> bool {
        matches!(text.next(&mut self.world), Ok(Some(_)))
    }

    /// How many bytes are left, at most 100.
    fn left(&mut self, text: &mut SliceBytes<'_>) -> u64 {
        for n in 0..100u64 {
            if !self.gives(text) {
                return n;
            }
        }
        100
    }
}

fn say_fault(fault: ReadFault, said: &mut Text) {
    match fault {
        ReadFault::Syntax(k) => {
            said.put(b'?');
            said.put_number(k);
        }
        ReadFault::End => said.put(b'.'),
        ReadFault::Stop(Stop::Turns) => said.put(b'T'),
        ReadFault::Stop(Stop::Cells) => said.put(b'C'),
        ReadFault::Stop(Stop::Depth) => said.put(b'D'),
        ReadFault::Stop(Stop::Read) => said.put(b'R'),
        ReadFault::Stop(_) => said.put(b'!'),
    }
}

/// The bytes of a string.
fn say_string(w: &World, s: Val, said: &mut Text)
    requires { IsTrue (is_str w.now.cells.cells s) }
{
    for i in 0..w.cells.string_len(s) {
        said.put(w.cells.string_byte(s, i));
    }
    said.put(b';');
}

/// What a value is, to this depth.
fn say_value(w: &World, v: Val, depth: u32, said: &mut Text)
    requires table { IsTable w.now.cells.cells w.now.syms.head }
    requires live { IsTrue (is_live w.now.cells.cells v) }
{
    if depth == 0 {
        return said.put(b'=');
    }
    match v.tag() {
        Tag::Pair => {
            said.put(b'p');
            say_value(w, w.cells.car(v), depth - 1, said);
            say_value(w, w.cells.cdr(v), depth - 1, said);
        }
        Tag::Vector => {
            said.put(b'v');
            let places = w.cells.vector_len(v);
            said.put_number(u64::from(places));
            for i in 0..places {
                say_value(w, w.cells.get(v, i), depth - 1, said);
            }
        }
        _ => say_atom(w, v, said),
    }
}

fn say_atom(w: &World, v: Val, said: &mut Text)
    requires table { IsTable w.now.cells.cells w.now.syms.head }
    requires live { IsTrue (is_live w.now.cells.cells v) }
{
    match v.tag() {
        Tag::Id => {
            said.put(b'i');
            say_string(w, w.syms.name(&w.cells, v), said);
        }
        Tag::Str => {
            said.put(b's');
            say_string(w, v, said);
        }
        Tag::Int => {
            said.put(b'n');
            let n = v.number();
            if n < 0 {
                said.put(b'-');
            }
            said.put_number(n.unsigned_abs());
            said.put(b';');
        }
        _ => said.put(b'!'),
    }
}

/// Says what a text spells, and how many bytes are left.
fn say_text(bench: &mut Bench, text: &str, said: &mut Text) {
    let mut bytes = SliceBytes::new(text.as_bytes());
    bench.say(&mut bytes, 100, said);
    said.put(b' ');
    said.put_number(bench.left(&mut bytes));
}

/// Whether what is said of a text is so.
fn spells(rt: &HostRuntime, bench: &mut Bench, row: &Row) -> bool {
    let mut said = Text::new(rt);
    say_text(bench, row.0, &mut said);
    said.bytes.as_slice() == row.1.as_bytes()
}

/// The first row of which something else is said.
fn first_wrong(rt: &HostRuntime, rows: &[Row]) -> Result<Option<usize>, Fail> {
    let mut bench = Bench::open(rt, 10_000, 10)?;
    for (i, row) in rows.iter().enumerate() {
        if !spells(rt, &mut bench, row) {
            return Ok(Some(i));
        }
    }
    Ok(None)
}

/// A text of pieces.
fn text_of(rt: &HostRuntime, pieces: &[(&str, usize)]) -> Text {
    let mut text = Text::new(rt);
    for (piece, times) in pieces {
        text.put_times(piece, *times);
    }
    text
}

/// Says whether a form was read, and the cells that are used then.
fn say_size(bench: &mut Bench, bytes: &[u8], said: &mut Text) {
    bench.say(&mut SliceBytes::new(bytes), 0, said);
    said.put(b' ');
    said.put_number(u64::from(bench.world.cells.used()));
}

/// Whether what is said of a text is so.
fn has_length(rt: &HostRuntime, row: &Long) -> Result<bool, Fail> {
    let mut bench = Bench::open(rt, row.1, row.2)?;
    let text = text_of(rt, row.0);
    let mut said = Text::new(rt);
    say_size(&mut bench, text.bytes.as_slice(), &mut said);
    Ok(said.bytes.as_slice() == row.3.as_bytes())
}

fn first_wrong_length(rt: &HostRuntime, rows: &[Long]) -> Result<Option<usize>, Fail> {
    for (i, row) in rows.iter().enumerate() {
        if !has_length(rt, row)? {
            return Ok(Some(i));
        }
    }
    Ok(None)
}

/// Says what the next form of an input is.
fn say_next(bench: &mut Bench, input: &mut MemSource, files: &mut MemFiles, said: &mut Text) {
    let mut io = Io {
        input,
        out: &mut NullSink::new(),
        notes: &mut NullSink::new(),
        files,
    };
    bench.say_counted(&mut io, said);
}

/// Says what so many forms of an input are.
fn say_forms(
    bench: &mut Bench,
    input: &mut MemSource,
    files: &mut MemFiles,
    forms: u32,
    said: &mut Text,
) {
    for _ in 0..forms {
        say_next(bench, input, files, said);
    }
}

/// Whether what is said of an input is so.
fn is_told(rt: &HostRuntime, row: &Told) -> Result<bool, Fail> {
    let (mut input, mut files) = sources(rt, row.0, row.1)?;
    let mut bench = Bench::open(rt, 10_000, 10)?;
    let mut said = Text::new(rt);
    say_forms(&mut bench, &mut input, &mut files, row.2, &mut said);
    Ok(said.bytes.as_slice() == row.3)
}

fn first_wrong_input(rt: &HostRuntime, rows: &[Told]) -> Result<Option<usize>, Fail> {
    for (i, row) in rows.iter().enumerate() {
        if !is_told(rt, row)? {
            return Ok(Some(i));
        }
    }
    Ok(None)
}

#[test]
fn texts_spell_what_is_said(rt: HostRuntime) -> Result<(), Fail> {
    assert_eq!(rt; first_wrong(&rt, ROWS)?, None);
    Ok(())
}

#[test]
fn texts_take_levels_and_cells(rt: HostRuntime) -> Result<(), Fail> {
    assert_eq!(rt; first_wrong_length(&rt, LONG)?, None);
    Ok(())
}

#[test]
fn input_takes_turns_and_fails(rt: HostRuntime) -> Result<(), Fail> {
    assert_eq!(rt; first_wrong_input(&rt, INPUTS)?, None);
    Ok(())
}
