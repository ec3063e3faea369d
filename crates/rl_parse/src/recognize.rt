//! Where a statement ends.

ghost use Rattle.std.specs.Prelude.{◌≡◌, ◌+◌, ◌-◌, ◌<◌, ◌≤◌, ℕ, length, min};
ghost use Rattle.rl_grammar.specs.Statement.{Start, StatementPlace};
ghost use Rattle.rl_grammar.specs.SourceReader.{read_source};
ghost use Rattle.rl_parse.specs.Machine.{machine_within};
ghost use Rattle.rl_parse.specs.Recognition.{IsAdvance, IsNothingHere, IsRecognizedAs, IsStatementHere, IsSyntaxHere, IsTaken, Stands, EndsWithin, behind_longest, shifted_by};

use crate::place::{Place, Step, What};
use crate::stack::Stack;
use crate::step::step_within;
use rl_grammar::laws::{
    finds_no_source, finds_no_token, finds_token, looks_no_further, reads_source, refuses_byte,
    refuses_source,
};
use rl_lex::{Nest, Next, Separator, Token, gap_end, next_token};

/// The most bytes of a statement, from the first byte of its first token on.
const LONGEST: usize = 1_048_576;

/// What a text begins with: a statement of this kind, up to this place; nothing but blanks and comments; or what goes on to
/// no statement with the byte at this place, or at its end.
#[derive(Clone, Copy)]
pub enum Recognized {
    Statement(What, Separator, usize),
    Nothing,
    Syntax(usize),
}

/// Where a token leads: to a place, and the bytes behind it; or all is known.
#[derive(Clone, Copy)]
pub(crate) enum Advance {
    Goes(Place, usize),
    Found(Recognized),
}

/// The place behind the longest statement that begins with the text, or the end of the text.
fn limit_of(bytes: &[u8]) -> usize
    ensures { result ≡ min (length bytes.now) 1048576 }
{
    bytes.len().min(LONGEST)
}

/// A token that is found.
fn take(stack: &mut Stack, place: Place, token: Token) -> Advance
    requires { length stack.old + 2 < 2240 }
    ensures { IsTaken token stack.new result (machine_within place stack.old token.kind) }
{
    match step_within(stack, place, token.kind) {
        Step::Goes(next) => Advance::Goes(next, token.to),
        Step::Ends(what, separator) => {
            Advance::Found(Recognized::Statement(what, separator, token.to))
        }
        Step::Refused => Advance::Found(Recognized::Syntax(token.from)),
    }
}

/// What stands from the place `at` on.
fn next_place(bytes: &[u8], at: usize, place: Place, stack: &mut Stack, nest: &mut Nest) -> Advance
    requires here { at ≤ length bytes.now }
    requires before { at ≤ 1048576 }
    requires short { length bytes.now ≤ 1048577 }
    requires room { length stack.old + 2 < 2240 }
    ensures { (s : StatementPlace) → Stands place stack.old s → IsAdvance bytes.now at s stack.new result }
{
    finds_token();
    finds_no_token();
    refuses_byte();
    let limit = limit_of(bytes);
    match next_token(bytes, at, nest) {
        Next::Token(token) => {
            if token.to <= limit {
                take(stack, place, token)
            } else {
                Advance::Found(Recognized::Syntax(limit))
            }
        }
        Next::End => Advance::Found(Recognized::Syntax(limit)),
        Next::Bad(k) => {
            if k <= limit {
                Advance::Found(Recognized::Syntax(k))
            } else {
                Advance::Found(Recognized::Syntax(limit))
            }
        }
    }
}

/// What a text begins with that begins with a token.
fn recognize(bytes: &[u8], nest: &mut Nest) -> Recognized
    requires { length bytes.now ≤ 1048577 }
    ensures { (n : ℕ) → length bytes.now < n → IsRecognizedAs bytes.now 0 result (read_source n (behind_longest bytes.now) Start bytes.now) }
{
    let mut stack = Stack::new();
    let mut place = Place::Start;
    let mut at = 0usize;
    while at < bytes.len() {
        match next_place(bytes, at, place, &mut stack, nest) {
            Advance::Goes(next, to) => {
                place = next;
                at = to;
            }
            Advance::Found(found) => return found,
        }
    }
    Recognized::Syntax(at)
}

/// What is found in the text that begins at `from`.
fn shifted(from: usize, found: Recognized) -> Recognized
    requires { EndsWithin (18446744073709551615 - from) found }
    ensures { result ≡ shifted_by from found }
{
    match found {
        Recognized::Statement(what, separator, to) => {
            Recognized::Statement(what, separator, from + to)
        }
        Recognized::Nothing => Recognized::Nothing,
        Recognized::Syntax(k) => Recognized::Syntax(from + k),
    }
}

/// What stands in a window from the place `at` on: the first statement, its kind, its separator and the place behind it;
/// nothing but blanks and comments; or the place of the byte with which no statement goes on, which may be the end.
///
/// What stands behind the byte after the longest statement changes nothing, so a window that holds that byte, or ends where
/// its file ends, tells what the file would. Nothing is made. The nest is where a quoted spelling keeps what has begun in it.
pub fn recognize_statement(window: &[u8], at: usize, nest: &mut Nest) -> Recognized
    requires { at ≤ length window.now }
    ensures statement { IsStatementHere window.now at result }
    ensures nothing { IsNothingHere window.now at result }
    ensures syntax { IsSyntaxHere window.now at result }
{
    reads_source();
    finds_no_source();
    refuses_source();
    looks_no_further();
    let from = gap_end(window, at);
    if from == window.len() {
        return Recognized::Nothing;
    }
    let end = end_of(window, from);
    shifted(from, recognize(&window[from..end], nest))
}

/// The end of the longest statement that begins at `from` and of the byte behind it; or the end of the window.
fn end_of(window: &[u8], from: usize) -> usize
    requires { from ≤ length window.now }
    ensures { result ≡ min (length window.now) (from + 1048577) }
{
    if window.len() - from <= LONGEST {
        window.len()
    } else {
        from + LONGEST + 1
    }
}
