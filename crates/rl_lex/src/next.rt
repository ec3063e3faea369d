//! The next token.

ghost use Rattle.std.specs.Prelude.{◌≡◌, ◌<◌, ◌≤◌, ◌^◌, ◌⊎◌, length, slice_index, true, false};
ghost use Rattle.rl_tree.specs.Bytes.{is_digit, is_letter};
ghost use Rattle.rl_grammar.specs.Lexer.{begins_spelling};
ghost use Rattle.rl_lex.specs.Tokens.{IsBadNext, IsEndNext, IsLexeme, IsTokenNext, name_kind, scan_as, short_as};

use crate::atom::{Scan, digits_end, is_bare, name_end, text_end};
use crate::gap::gap_end;
use crate::kind::TokenKind;
use crate::mark::{long_mark, short_mark};
use crate::nest::Nest;
use crate::spelling::quoted_end;
use crate::word::recognize;
use rl_grammar::laws::{finds_no_token, finds_token, refuses_byte};

/// A token: its kind, and its place. Its text is the bytes from `from` up to `to`.
#[derive(Clone, Copy)]
pub struct Token {
    pub kind: TokenKind,
    pub from: usize,
    pub to: usize,
}

/// What stands next: a token; nothing but blanks and comments; or a byte, or the end of the bytes, at this place with which
/// no token goes on.
#[derive(Clone, Copy)]
pub enum Next {
    Token(Token),
    End,
    Bad(usize),
}

/// Whether a name, an integer, a string or `'` begins with the byte.
fn begins_spelling(b: u8) -> bool
    ensures { result ≡ begins_spelling b }
{
    b.is_ascii_alphanumeric() || b >= 128 || b == b'!' || b == b'"' || b == b'\''
}

/// What a name is by its text.
fn name_kind(text: &[u8]) -> TokenKind
    ensures { result ≡ name_kind text.now }
{
    if is_bare(text) {
        recognize(text)
    } else {
        TokenKind::Identifier
    }
}

/// A token of this kind from `from` on, or none.
fn spelled(from: usize, kind: TokenKind, scan: Scan) -> Next
    ensures { result ≡ scan_as from kind scan }
{
    match scan {
        Scan::Ends(to) => Next::Token(Token { kind, from, to }),
        Scan::Bad(k) => Next::Bad(k),
    }
}

/// The name at `at`.
fn named(bytes: &[u8], at: usize) -> Next
    requires here { at < length bytes.now }
    requires begins { (is_letter (slice_index bytes.now at) ≡ true) ⊎ (slice_index bytes.now at ≡ 33) }
    ensures { IsLexeme bytes.now at result }
{
    match name_end(bytes, at) {
        Scan::Ends(to) => Next::Token(Token {
            kind: name_kind(&bytes[at..to]),
            from: at,
            to,
        }),
        Scan::Bad(k) => Next::Bad(k),
    }
}

/// The mark of one byte at `at`.
fn short(at: usize, b: u8) -> Next
    requires { at < 2 ^ 63 }
    ensures { result ≡ short_as at b }
{
    match short_mark(b) {
        Some(kind) => Next::Token(Token {
            kind,
            from: at,
            to: at + 1,
        }),
        None => Next::Bad(at),
    }
}

/// The mark at `at`.
fn marked(bytes: &[u8], at: usize) -> Next
    requires here { at < length bytes.now }
    requires begins { begins_spelling (slice_index bytes.now at) ≡ false }
    ensures { IsLexeme bytes.now at result }
{
    let b = bytes[at];
    let next = at + 1;
    if next == bytes.len() {
        return short(at, b);
    }
    match long_mark(b, bytes[next]) {
        Some(kind) => Next::Token(Token {
            kind,
            from: at,
            to: at + 2,
        }),
        None => short(at, b),
    }
}

/// What begins with the byte at `at`, which stands in no blank or comment.
fn lexeme(bytes: &[u8], at: usize, nest: &mut Nest) -> Next
    requires here { at < length bytes.now }
    requires short { length bytes.now ≤ 1048577 }
    ensures { IsLexeme bytes.now at result }
{
    let b = bytes[at];
    if !begins_spelling(b) {
        return marked(bytes, at);
    }
    if b.is_ascii_digit() {
        return spelled(at, TokenKind::Integer, digits_end(bytes, at, false));
    }
    match b {
        b'"' => spelled(at, TokenKind::String, text_end(bytes, at)),
        b'\'' => spelled(at, TokenKind::Quoted, quoted_end(bytes, at, nest)),
        _ => named(bytes, at),
    }
}

/// The next token of bytes from the place `at` on, behind blanks and comments.
///
/// The bytes are at most those of the longest statement and the one behind it: 1,048,577. The nest is where a quoted spelling
/// keeps what has begun in it; what it holds before changes nothing.
pub fn next_token(bytes: &[u8], at: usize, nest: &mut Nest) -> Next
    requires here { at ≤ length bytes.now }
    requires short { length bytes.now ≤ 1048577 }
    ensures token { IsTokenNext bytes.now at result }
    ensures end { IsEndNext bytes.now at result }
    ensures bad { IsBadNext bytes.now at result }
{
    finds_token();
    finds_no_token();
    refuses_byte();
    let from = gap_end(bytes, at);
    if from == bytes.len() {
        return Next::End;
    }
    lexeme(bytes, from, nest)
}
