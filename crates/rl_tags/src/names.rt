//! The identifiers that opening makes at fixed places: a constant for each name of the table, and the table.
#![tactic(auto)]

ghost use Rattle.std.specs.Prelude.{◌≡◌, ◌<◌, ◌+◌, ◌*◌, ◌^◌, [], length, map, slice_index_or, None};
ghost use Rattle.rl_tags.specs.Tagged.{IdAt};
ghost use Rattle.rl_tags.specs.Opening.{place_of, name_at, arguments_at, native_at, native_arguments};

use crate::{Tag, Val};

// A name is a string of two cells, and the three cells of its identifier's block stand behind it.
macro_rules! id {
    ($number:expr) => {
        Val {
            word: 16 * (5 * $number + 2) + 1,
        }
    };
}

pub const NIL: Val = id!(0);

pub const T: Val = id!(1);

pub const QUOTE: Val = id!(2);

pub const EMSG_STAR: Val = id!(3);

pub const DOLLAR_EOF: Val = id!(4);

pub const DOLLAR_EOL: Val = id!(5);

pub const FUNCTION: Val = id!(6);

pub const COND: Val = id!(7);

pub const PROGN: Val = id!(8);

pub const AND: Val = id!(9);

pub const OR: Val = id!(10);

pub const SETQ: Val = id!(11);

pub const PROG: Val = id!(12);

pub const GO: Val = id!(13);

pub const RETURN: Val = id!(14);

pub const LAMBDA: Val = id!(15);

pub const LIST: Val = id!(16);

pub const PLUS: Val = id!(17);

pub const TIMES: Val = id!(18);

pub const MAX: Val = id!(19);

pub const MIN: Val = id!(20);

pub const DE: Val = id!(21);

pub const DF: Val = id!(22);

pub const DM: Val = id!(23);

pub const EXPR: Val = id!(24);

pub const FEXPR: Val = id!(25);

pub const MACRO: Val = id!(26);

pub const ATOM: Val = id!(27);

pub const CODEP: Val = id!(28);

pub const CONSTANTP: Val = id!(29);

pub const EQ: Val = id!(30);

pub const EQN: Val = id!(31);

pub const FIXP: Val = id!(32);

pub const IDP: Val = id!(33);

pub const NOT: Val = id!(34);

pub const NULL: Val = id!(35);

pub const NUMBERP: Val = id!(36);

pub const PAIRP: Val = id!(37);

pub const STRINGP: Val = id!(38);

pub const VECTORP: Val = id!(39);

pub const EQUAL: Val = id!(40);

pub const MINUSP: Val = id!(41);

pub const ONEP: Val = id!(42);

pub const ZEROP: Val = id!(43);

pub const CAR: Val = id!(44);

pub const CDR: Val = id!(45);

pub const CAAR: Val = id!(46);

pub const CADR: Val = id!(47);

pub const CDAR: Val = id!(48);

pub const CDDR: Val = id!(49);

pub const CAAAR: Val = id!(50);

pub const CAADR: Val = id!(51);

pub const CADAR: Val = id!(52);

pub const CADDR: Val = id!(53);

pub const CDAAR: Val = id!(54);

pub const CDADR: Val = id!(55);

pub const CDDAR: Val = id!(56);

pub const CDDDR: Val = id!(57);

pub const CAAAAR: Val = id!(58);

pub const CAAADR: Val = id!(59);

pub const CAADAR: Val = id!(60);

pub const CAADDR: Val = id!(61);

pub const CADAAR: Val = id!(62);

pub const CADADR: Val = id!(63);

pub const CADDAR: Val = id!(64);

pub const CADDDR: Val = id!(65);

pub const CDAAAR: Val = id!(66);

pub const CDAADR: Val = id!(67);

pub const CDADAR: Val = id!(68);

pub const CDADDR: Val = id!(69);

pub const CDDAAR: Val = id!(70);

pub const CDDADR: Val = id!(71);

pub const CDDDAR: Val = id!(72);

pub const CDDDDR: Val = id!(73);

pub const CONS: Val = id!(74);

pub const RPLACA: Val = id!(75);

pub const RPLACD: Val = id!(76);

pub const APPEND: Val = id!(77);

pub const REVERSE: Val = id!(78);

pub const LENGTH: Val = id!(79);

pub const MEMBER: Val = id!(80);

pub const MEMQ: Val = id!(81);

pub const ASSOC: Val = id!(82);

pub const NCONC: Val = id!(83);

pub const ABS: Val = id!(84);

pub const ADD1: Val = id!(85);

pub const MINUS: Val = id!(86);

pub const SUB1: Val = id!(87);

pub const DIFFERENCE: Val = id!(88);

pub const PLUS2: Val = id!(89);

pub const TIMES2: Val = id!(90);

pub const MAX2: Val = id!(91);

pub const MIN2: Val = id!(92);

pub const QUOTIENT: Val = id!(93);

pub const REMAINDER: Val = id!(94);

pub const DIVIDE: Val = id!(95);

pub const EXPT: Val = id!(96);

pub const GREATERP: Val = id!(97);

pub const LESSP: Val = id!(98);

pub const ERROR: Val = id!(99);

pub const MKVECT: Val = id!(100);

pub const GETV: Val = id!(101);

pub const PUTV: Val = id!(102);

pub const UPBV: Val = id!(103);

pub const GENSYM: Val = id!(104);

pub const INTERN: Val = id!(105);

pub const EXPLODE: Val = id!(106);

pub const COMPRESS: Val = id!(107);

pub const DIGIT: Val = id!(108);

pub const LITER: Val = id!(109);

pub const GET: Val = id!(110);

pub const FLAGP: Val = id!(111);

pub const PUT: Val = id!(112);

pub const REMPROP: Val = id!(113);

pub const FLAG: Val = id!(114);

pub const REMFLAG: Val = id!(115);

pub const GETD: Val = id!(116);

pub const PUTD: Val = id!(117);

pub const REMD: Val = id!(118);

pub const FLUID: Val = id!(119);

pub const GLOBAL: Val = id!(120);

pub const UNFLUID: Val = id!(121);

pub const FLUIDP: Val = id!(122);

pub const GLOBALP: Val = id!(123);

pub const SET: Val = id!(124);

pub const PRIN1: Val = id!(125);

pub const PRIN2: Val = id!(126);

pub const PRINT: Val = id!(127);

pub const TERPRI: Val = id!(128);

pub const POSN: Val = id!(129);

pub const LINELENGTH: Val = id!(130);

pub const READ: Val = id!(131);

pub const READCH: Val = id!(132);

pub const EVAL: Val = id!(133);

pub const ERRORSET: Val = id!(134);

pub const APPLY: Val = id!(135);

pub const COMPILE: Val = id!(136);

pub const FASLOUT: Val = id!(137);

pub const LOAD: Val = id!(138);

pub const MAP: Val = id!(139);

pub const MAPC: Val = id!(140);

pub const MAPCAR: Val = id!(141);

pub const MAPLIST: Val = id!(142);

pub const MAPCAN: Val = id!(143);

pub const MAPCON: Val = id!(144);

pub const SASSOC: Val = id!(145);

pub const SUBLIS: Val = id!(146);

pub const SUBST: Val = id!(147);

pub const DELETE: Val = id!(148);

pub const PAIR: Val = id!(149);

pub const DEFLIST: Val = id!(150);

pub const EXPAND: Val = id!(151);

pub const EVLIS: Val = id!(152);

pub const PROG2: Val = id!(153);

pub const DOLLAR_X: Val = id!(154);

pub const DOLLAR_FN: Val = id!(155);

pub const DOLLAR_L: Val = id!(156);

pub const DOLLAR_R: Val = id!(157);

pub const DOLLAR_U: Val = id!(158);

pub const DOLLAR_V: Val = id!(159);

pub const DOLLAR_Y: Val = id!(160);

pub const DOLLAR_A: Val = id!(161);

pub const DOLLAR_D: Val = id!(162);

pub const DOLLAR_W: Val = id!(163);

pub const DOLLAR_M: Val = id!(164);

pub const DOLLAR_I: Val = id!(165);

pub const DOLLAR_B: Val = id!(166);

/// How many names have a constant.
pub const OPENING_NAMES: usize = 167;

// Each name, its constant's word, and the number of arguments of a native that code may call.
type OpeningRow = (&'static str, u64, Option<u8>);

static OPENING: [OpeningRow; 167] = [
    ("NIL", NIL.word, None),
    ("T", T.word, None),
    ("QUOTE", QUOTE.word, None),
    ("EMSG*", EMSG_STAR.word, None),
    ("$EOF$", DOLLAR_EOF.word, None),
    ("$EOL$", DOLLAR_EOL.word, None),
    ("FUNCTION", FUNCTION.word, None),
    ("COND", COND.word, None),
    ("PROGN", PROGN.word, None),
    ("AND", AND.word, None),
    ("OR", OR.word, None),
    ("SETQ", SETQ.word, None),
    ("PROG", PROG.word, None),
    ("GO", GO.word, None),
    ("RETURN", RETURN.word, None),
    ("LAMBDA", LAMBDA.word, None),
    ("LIST", LIST.word, None),
    ("PLUS", PLUS.word, None),
    ("TIMES", TIMES.word, None),
    ("MAX", MAX.word, None),
    ("MIN", MIN.word, None),
    ("DE", DE.word, None),
    ("DF", DF.word, None),
    ("DM", DM.word, None),
    ("EXPR", EXPR.word, None),
    ("FEXPR", FEXPR.word, None),
    ("MACRO", MACRO.word, None),
    ("ATOM", ATOM.word, Some(1)),
    ("CODEP", CODEP.word, Some(1)),
    ("CONSTANTP", CONSTANTP.word, Some(1)),
    ("EQ", EQ.word, Some(2)),
    ("EQN", EQN.word, Some(2)),
    ("FIXP", FIXP.word, Some(1)),
    ("IDP", IDP.word, Some(1)),
    ("NOT", NOT.word, Some(1)),
    ("NULL", NULL.word, Some(1)),
    ("NUMBERP", NUMBERP.word, Some(1)),
    ("PAIRP", PAIRP.word, Some(1)),
    ("STRINGP", STRINGP.word, Some(1)),
    ("VECTORP", VECTORP.word, Some(1)),
    ("EQUAL", EQUAL.word, Some(2)),
    ("MINUSP", MINUSP.word, Some(1)),
    ("ONEP", ONEP.word, Some(1)),
    ("ZEROP", ZEROP.word, Some(1)),
    ("CAR", CAR.word, Some(1)),
    ("CDR", CDR.word, Some(1)),
    ("CAAR", CAAR.word, Some(1)),
    ("CADR", CADR.word, Some(1)),
    ("CDAR", CDAR.word, Some(1)),
    ("CDDR", CDDR.word, Some(1)),
    ("CAAAR", CAAAR.word, Some(1)),
    ("CAADR", CAADR.word, Some(1)),
    ("CADAR", CADAR.word, Some(1)),
    ("CADDR", CADDR.word, Some(1)),
    ("CDAAR", CDAAR.word, Some(1)),
    ("CDADR", CDADR.word, Some(1)),
    ("CDDAR", CDDAR.word, Some(1)),
    ("CDDDR", CDDDR.word, Some(1)),
    ("CAAAAR", CAAAAR.word, Some(1)),
    ("CAAADR", CAAADR.word, Some(1)),
    ("CAADAR", CAADAR.word, Some(1)),
    ("CAADDR", CAADDR.word, Some(1)),
    ("CADAAR", CADAAR.word, Some(1)),
    ("CADADR", CADADR.word, Some(1)),
    ("CADDAR", CADDAR.word, Some(1)),
    ("CADDDR", CADDDR.word, Some(1)),
    ("CDAAAR", CDAAAR.word, Some(1)),
    ("CDAADR", CDAADR.word, Some(1)),
    ("CDADAR", CDADAR.word, Some(1)),
    ("CDADDR", CDADDR.word, Some(1)),
    ("CDDAAR", CDDAAR.word, Some(1)),
    ("CDDADR", CDDADR.word, Some(1)),
    ("CDDDAR", CDDDAR.word, Some(1)),
    ("CDDDDR", CDDDDR.word, Some(1)),
    ("CONS", CONS.word, Some(2)),
    ("RPLACA", RPLACA.word, Some(2)),
    ("RPLACD", RPLACD.word, Some(2)),
    ("APPEND", APPEND.word, Some(2)),
    ("REVERSE", REVERSE.word, Some(1)),
    ("LENGTH", LENGTH.word, Some(1)),
    ("MEMBER", MEMBER.word, Some(2)),
    ("MEMQ", MEMQ.word, Some(2)),
    ("ASSOC", ASSOC.word, Some(2)),
    ("NCONC", NCONC.word, Some(2)),
    ("ABS", ABS.word, Some(1)),
    ("ADD1", ADD1.word, Some(1)),
    ("MINUS", MINUS.word, Some(1)),
    ("SUB1", SUB1.word, Some(1)),
    ("DIFFERENCE", DIFFERENCE.word, Some(2)),
    ("PLUS2", PLUS2.word, Some(2)),
    ("TIMES2", TIMES2.word, Some(2)),
    ("MAX2", MAX2.word, Some(2)),
    ("MIN2", MIN2.word, Some(2)),
    ("QUOTIENT", QUOTIENT.word, Some(2)),
    ("REMAINDER", REMAINDER.word, Some(2)),
    ("DIVIDE", DIVIDE.word, Some(2)),
    ("EXPT", EXPT.word, Some(2)),
    ("GREATERP", GREATERP.word, Some(2)),
    ("LESSP", LESSP.word, Some(2)),
    ("ERROR", ERROR.word, Some(2)),
    ("MKVECT", MKVECT.word, Some(1)),
    ("GETV", GETV.word, Some(2)),
    ("PUTV", PUTV.word, Some(3)),
    ("UPBV", UPBV.word, Some(1)),
    ("GENSYM", GENSYM.word, Some(0)),
    ("INTERN", INTERN.word, Some(1)),
    ("EXPLODE", EXPLODE.word, Some(1)),
    ("COMPRESS", COMPRESS.word, Some(1)),
    ("DIGIT", DIGIT.word, Some(1)),
    ("LITER", LITER.word, Some(1)),
    ("GET", GET.word, Some(2)),
    ("FLAGP", FLAGP.word, Some(2)),
    ("PUT", PUT.word, Some(3)),
    ("REMPROP", REMPROP.word, Some(2)),
    ("FLAG", FLAG.word, Some(2)),
    ("REMFLAG", REMFLAG.word, Some(2)),
    ("GETD", GETD.word, Some(1)),
    ("PUTD", PUTD.word, Some(3)),
    ("REMD", REMD.word, Some(1)),
    ("FLUID", FLUID.word, Some(1)),
    ("GLOBAL", GLOBAL.word, Some(1)),
    ("UNFLUID", UNFLUID.word, Some(1)),
    ("FLUIDP", FLUIDP.word, Some(1)),
    ("GLOBALP", GLOBALP.word, Some(1)),
    ("SET", SET.word, Some(2)),
    ("PRIN1", PRIN1.word, Some(1)),
    ("PRIN2", PRIN2.word, Some(1)),
    ("PRINT", PRINT.word, Some(1)),
    ("TERPRI", TERPRI.word, Some(0)),
    ("POSN", POSN.word, Some(0)),
    ("LINELENGTH", LINELENGTH.word, Some(1)),
    ("READ", READ.word, Some(0)),
    ("READCH", READCH.word, Some(0)),
    ("EVAL", EVAL.word, None),
    ("ERRORSET", ERRORSET.word, None),
    ("APPLY", APPLY.word, None),
    ("COMPILE", COMPILE.word, None),
    ("FASLOUT", FASLOUT.word, None),
    ("LOAD", LOAD.word, None),
    ("MAP", MAP.word, None),
    ("MAPC", MAPC.word, None),
    ("MAPCAR", MAPCAR.word, None),
    ("MAPLIST", MAPLIST.word, None),
    ("MAPCAN", MAPCAN.word, None),
    ("MAPCON", MAPCON.word, None),
    ("SASSOC", SASSOC.word, None),
    ("SUBLIS", SUBLIS.word, None),
    ("SUBST", SUBST.word, None),
    ("DELETE", DELETE.word, None),
    ("PAIR", PAIR.word, None),
    ("DEFLIST", DEFLIST.word, None),
    ("EXPAND", EXPAND.word, None),
    ("EVLIS", EVLIS.word, None),
    ("PROG2", PROG2.word, None),
    ("$X", DOLLAR_X.word, None),
    ("$FN", DOLLAR_FN.word, None),
    ("$L", DOLLAR_L.word, None),
    ("$R", DOLLAR_R.word, None),
    ("$U", DOLLAR_U.word, None),
    ("$V", DOLLAR_V.word, None),
    ("$Y", DOLLAR_Y.word, None),
    ("$A", DOLLAR_A.word, None),
    ("$D", DOLLAR_D.word, None),
    ("$W", DOLLAR_W.word, None),
    ("$M", DOLLAR_M.word, None),
    ("$I", DOLLAR_I.word, None),
    ("$B", DOLLAR_B.word, None),
];

/// The identifier with this number: these have the numbers from 0 on, in the order of their making.
pub fn opening_id(number: usize) -> Val
    requires { number < OPENING_NAMES }
    ensures { result ≡ IdAt (place_of number) }
{
    Val {
        word: word_at(number),
    }
}

/// Its name.
pub fn opening_name(number: usize) -> &'static [u8]
    requires { number < OPENING_NAMES }
    ensures { result.now ≡ name_at number }
{
    text_at(number).as_bytes()
}

/// The number of arguments of the native that code may call and that this is the name of; None for every other value.
pub fn native_of(id: Val) -> Option<u8>
    ensures { result ≡ native_arguments id }
{
    match id.tag() {
        Tag::Id => native_at_place(id.index()),
        _ => None,
    }
}

fn native_at_place(place: u64) -> Option<u8>
    requires { place < 2 ^ 60 }
    ensures { result ≡ native_at place }
{
    let number = place / 5;
    if place % 5 == 2 && number < OPENING_NAMES as u64 {
        native_arguments_at(number as usize)
    } else {
        None
    }
}

fn word_at(number: usize) -> u64
    requires { number < OPENING_NAMES }
    ensures { result ≡ 16 * place_of number + 1 }
{
    word_in(&OPENING, number)
}

fn text_at(number: usize) -> &'static str
    requires { number < OPENING_NAMES }
    ensures { result.now ≡ name_at number }
{
    text_in(&OPENING, number)
}

fn native_arguments_at(number: usize) -> Option<u8>
    requires { number < OPENING_NAMES }
    ensures { result ≡ arguments_at number }
{
    arguments_in(&OPENING, number)
}

// These three take the table as an argument, so that their proofs do not see its rows.
fn word_in(rows: &[OpeningRow], number: usize) -> u64
    requires { number < length rows.now }
    ensures { result ≡ slice_index_or (map (λ row. row.1) rows.now) number 0 }
{
    rows[number].1
}

fn text_in(rows: &[OpeningRow], number: usize) -> &'static str
    requires { number < length rows.now }
    ensures { result.now ≡ slice_index_or (map (λ row. row.0.now) rows.now) number [] }
{
    rows[number].0
}

fn arguments_in(rows: &[OpeningRow], number: usize) -> Option<u8>
    requires { number < length rows.now }
    ensures { result ≡ slice_index_or (map (λ row. row.2) rows.now) number None }
{
    rows[number].2
}
