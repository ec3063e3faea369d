//! Tagged words: the tag in the low four bits, a number of 60 bits above it.
#![tactic(auto)]

ghost use Rattle.std.specs.Prelude.{◌≡◌, ◌≢◌, ℕ, ℤ, pos, negsuc, ◌≤ℤ◌, ◌+◌, ◌*◌, ◌/◌, ◌%◌, ◌<◌, ◌≤◌, ◌^◌, MatchOption, Some, ◌-◌};
ghost use Rattle.rl_tags.specs.Parts.{part_value, parted};
ghost use Rattle.rl_tags.specs.Tagged.{Number, FunAt, tag_of, index_of, at_tag, number_of, word_of, IsWordOf};

use std::marker::Model;

mod names;

pub use names::ABS;
pub use names::ADD1;
pub use names::AND;
pub use names::APPEND;
pub use names::APPLY;
pub use names::ASSOC;
pub use names::ATOM;
pub use names::CAAAAR;
pub use names::CAAADR;
pub use names::CAAAR;
pub use names::CAADAR;
pub use names::CAADDR;
pub use names::CAADR;
pub use names::CAAR;
pub use names::CADAAR;
pub use names::CADADR;
pub use names::CADAR;
pub use names::CADDAR;
pub use names::CADDDR;
pub use names::CADDR;
pub use names::CADR;
pub use names::CAR;
pub use names::CDAAAR;
pub use names::CDAADR;
pub use names::CDAAR;
pub use names::CDADAR;
pub use names::CDADDR;
pub use names::CDADR;
pub use names::CDAR;
pub use names::CDDAAR;
pub use names::CDDADR;
pub use names::CDDAR;
pub use names::CDDDAR;
pub use names::CDDDDR;
pub use names::CDDDR;
pub use names::CDDR;
pub use names::CDR;
pub use names::CODEP;
pub use names::COMPILE;
pub use names::COMPRESS;
pub use names::COND;
pub use names::CONS;
pub use names::CONSTANTP;
pub use names::DE;
pub use names::DEFLIST;
pub use names::DELETE;
pub use names::DF;
pub use names::DIFFERENCE;
pub use names::DIGIT;
pub use names::DIVIDE;
pub use names::DM;
pub use names::DOLLAR_A;
pub use names::DOLLAR_B;
pub use names::DOLLAR_D;
pub use names::DOLLAR_EOF;
pub use names::DOLLAR_EOL;
pub use names::DOLLAR_FN;
pub use names::DOLLAR_I;
pub use names::DOLLAR_L;
pub use names::DOLLAR_M;
pub use names::DOLLAR_R;
pub use names::DOLLAR_U;
pub use names::DOLLAR_V;
pub use names::DOLLAR_W;
pub use names::DOLLAR_X;
pub use names::DOLLAR_Y;
pub use names::EMSG_STAR;
pub use names::EQ;
pub use names::EQN;
pub use names::EQUAL;
pub use names::ERROR;
pub use names::ERRORSET;
pub use names::EVAL;
pub use names::EVLIS;
pub use names::EXPAND;
pub use names::EXPLODE;
pub use names::EXPR;
pub use names::EXPT;
pub use names::FASLOUT;
pub use names::FEXPR;
pub use names::FIXP;
pub use names::FLAG;
pub use names::FLAGP;
pub use names::FLUID;
pub use names::FLUIDP;
pub use names::FUNCTION;
pub use names::GENSYM;
pub use names::GET;
pub use names::GETD;
pub use names::GETV;
pub use names::GLOBAL;
pub use names::GLOBALP;
pub use names::GO;
pub use names::GREATERP;
pub use names::IDP;
pub use names::INTERN;
pub use names::LAMBDA;
pub use names::LENGTH;
pub use names::LESSP;
pub use names::LINELENGTH;
pub use names::LIST;
pub use names::LITER;
pub use names::LOAD;
pub use names::MACRO;
pub use names::MAP;
pub use names::MAPC;
pub use names::MAPCAN;
pub use names::MAPCAR;
pub use names::MAPCON;
pub use names::MAPLIST;
pub use names::MAX;
pub use names::MAX2;
pub use names::MEMBER;
pub use names::MEMQ;
pub use names::MIN;
pub use names::MIN2;
pub use names::MINUS;
pub use names::MINUSP;
pub use names::MKVECT;
pub use names::NCONC;
pub use names::NIL;
pub use names::NOT;
pub use names::NULL;
pub use names::NUMBERP;
pub use names::ONEP;
pub use names::OPENING_NAMES;
pub use names::OR;
pub use names::PAIR;
pub use names::PAIRP;
pub use names::PLUS;
pub use names::PLUS2;
pub use names::POSN;
pub use names::PRIN1;
pub use names::PRIN2;
pub use names::PRINT;
pub use names::PROG;
pub use names::PROG2;
pub use names::PROGN;
pub use names::PUT;
pub use names::PUTD;
pub use names::PUTV;
pub use names::QUOTE;
pub use names::QUOTIENT;
pub use names::READ;
pub use names::READCH;
pub use names::REMAINDER;
pub use names::REMD;
pub use names::REMFLAG;
pub use names::REMPROP;
pub use names::RETURN;
pub use names::REVERSE;
pub use names::RPLACA;
pub use names::RPLACD;
pub use names::SASSOC;
pub use names::SET;
pub use names::SETQ;
pub use names::STRINGP;
pub use names::SUB1;
pub use names::SUBLIS;
pub use names::SUBST;
pub use names::T;
pub use names::TERPRI;
pub use names::TIMES;
pub use names::TIMES2;
pub use names::UNFLUID;
pub use names::UPBV;
pub use names::VECTORP;
pub use names::ZEROP;
pub use names::native_of;
pub use names::opening_id;
pub use names::opening_name;

/// The kinds of values, numbered 0 to 6 in the low four bits of a word.
#[derive(Clone, Copy, Debug, PartialEq, Eq)]
pub enum Tag {
    Int,
    Id,
    Str,
    Pair,
    Vector,
    Big,
    Fun,
}

/// A tagged word of 64 bits. A contract sees the integer or the place that it stands for.
#[derive(Clone, Copy, Debug, PartialEq, Eq)]
pub struct Val {
    word: u64,
}

impl Model for Val {
    ghost use Rattle.std.specs.Prelude.{ℕ, ◌%◌, ◌≤◌, ◌<◌, ◌^◌};
    ghost use Rattle.rl_tags.specs.Tagged.{Tagged, tagged_of, word_of};

    ghost Value = { Tagged };

    ghost view = { λ a. tagged_of a.word };

    ghost invariant = { λ a. (a.word % 16 ≤ 6) × (a.word < 2 ^ 64) };

    ghost inverse = { λ v. record { word = word_of v } };

    ghost use Rattle.std.specs.Prelude.{◌≡◌, ◌+◌, ◌*◌, ◌/◌};
    ghost use Rattle.std.proofs.Common.{ap, arith, ◌∙◌};
    ghost use Rattle.std.proofs.lemmas.Bool.Decides.{nat_tests};
    ghost use Rattle.rl_tags.specs.Tagged.{tagged_at, signed60, unsigned60};

    // the tag and the rest of a word give the word back
    ghost inverse_ok = { λ a h.
        let number : (i : ℕ) → i < 2 ^ 60 → unsigned60 (signed60 i) ≡ i = λ i l. Prim.grind (arith, nat_tests) in
        let parts : (t i : ℕ) → t ≤ 6 → i < 2 ^ 60 → word_of (tagged_at t i) ≡ 16 * i + t = λ t i l k. Prim.grind (arith, nat_tests, number) in
        let few : a.word / 16 < 2 ^ 60 = omega (arith, h.1) in
        let whole : 16 * (a.word / 16) + a.word % 16 ≡ a.word = omega arith in
        ap (λ (w : ℕ). record { word = w }) (parts (a.word % 16) (a.word / 16) h.0 few ∙ whole) };
}

impl Val {
    /// An integer of 60 bits, in two's complement above the tag; -(2^59) is the least, 2^59 - 1 the greatest.
    pub fn small(n: i64) -> Val
        requires low { negsuc 576460752303423487 ≤ℤ n }
        requires high { n ≤ℤ pos 576460752303423487 }
        ensures { result ≡ Number n }
    {
        if n >= 0 {
            Val {
                word: n as u64 * 16,
            }
        } else {
            Val {
                word: (n + (1 << 60)) as u64 * 16,
            }
        }
    }

    /// The place `index`, of 60 bits, under a tag other than `Int`.
    pub fn at(tag: Tag, index: u64) -> Val
        requires no_int { tag ≢ Tag.Int }
        requires fits { index < 2 ^ 60 }
        ensures { result ≡ at_tag tag index }
    {
        Val {
            word: index * 16 + tag as u64,
        }
    }

    /// Its tag.
    pub fn tag(self) -> Tag
        ensures { result ≡ tag_of self }
    {
        match self.word % 16 {
            0 => Tag::Int,
            1 => Tag::Id,
            2 => Tag::Str,
            3 => Tag::Pair,
            4 => Tag::Vector,
            5 => Tag::Big,
            _ => Tag::Fun,
        }
    }

    /// The place that it names.
    pub fn index(self) -> u64
        requires { tag_of self ≢ Tag.Int }
        ensures at { result ≡ index_of self }
        ensures fits { result < 2 ^ 60 }
    {
        self.word / 16
    }

    /// The integer that it is.
    pub fn number(self) -> i64
        requires { tag_of self ≡ Tag.Int }
        ensures number { result ≡ number_of self }
        ensures low { negsuc 576460752303423487 ≤ℤ result }
        ensures high { result ≤ℤ pos 576460752303423487 }
    {
        let above = self.word / 16;
        if above < 1 << 59 {
            above as i64
        } else {
            above as i64 - (1 << 60)
        }
    }

    /// The word for it.
    pub fn word(self) -> u64
        ensures word { result ≡ word_of self }
        ensures back { IsWordOf result self }
    {
        self.word
    }

    /// What a word stands for, None exactly where the low four bits exceed 6.
    pub fn read(word: u64) -> Option<Val>
        ensures back { MatchOption result (6 < word % 16) (λ v. IsWordOf word v) }
        ensures word { MatchOption result (6 < word % 16) (λ v. word_of v ≡ word) }
    {
        if word % 16 <= 6 {
            Some(Val { word })
        } else {
            None
        }
    }

    /// Node `at` of a held function, under the tag `Fun`: its place is `(at + 1) * 2^32` plus the holder's, which is below `2^32`.
    pub fn part(holder: Val, at: u32) -> Val
        requires no_int { tag_of holder ≢ Tag.Int }
        requires below { index_of holder < 2 ^ 32 }
        requires node { at < 2 ^ 28 - 1 }
        ensures value { result ≡ part_value holder at }
        ensures back { parted result ≡ Some (FunAt (index_of holder), at) }
    {
        Val::at(Tag::Fun, (at as u64 + 1) * (1 << 32) + holder.index())
    }

    /// The held function and its node that this names, None exactly where the tag is not `Fun` or the place is below `2^32`.
    pub fn part_of(self) -> Option<(Val, u32)>
        ensures value { result ≡ parted self }
        ensures back { MatchOption result (tag_of self ≡ Tag.Fun → index_of self < 2 ^ 32) (λ p. part_value p.0 p.1 ≡ self) }
        ensures holder { MatchOption result (tag_of self ≡ Tag.Fun → index_of self < 2 ^ 32) (λ p. index_of p.0 < 2 ^ 32) }
        ensures node { MatchOption result (tag_of self ≡ Tag.Fun → index_of self < 2 ^ 32) (λ p. p.1 < 2 ^ 28 - 1) }
    {
        match self.tag() {
            Tag::Fun => {
                let index = self.index();
                if index < 1 << 32 {
                    None
                } else {
                    Some((
                        Val::at(Tag::Fun, index % (1 << 32)),
                        (index / (1 << 32) - 1) as u32,
                    ))
                }
            }
            _ => None,
        }
    }
}
