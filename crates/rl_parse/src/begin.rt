//! An operand begins.

ghost use Rattle.std.specs.Prelude.{◌≡◌, ◌<◌, ◌≤◌, length};
ghost use Rattle.rl_parse.specs.Kinds.{kind_begins, kind_begins_phrase};
ghost use Rattle.rl_parse.specs.Machine.{allowed, machine_begin, shown_step, wants};
ghost use Rattle.rl_parse.specs.Machine as machine;
ghost use Rattle.rl_parse.specs.declared.place.Place.TheVariants as place;

use crate::frame::{Frame, Group};
use crate::level::lowest;
use crate::place::{Listing, Place, Step};
use crate::stack::Stack;
use rl_lex::{Operator, TokenKind};

/// A prim that does not begin with `(`, and is no word of the three, begins with the token.
pub(crate) fn begins_phrase(kind: TokenKind) -> bool
    ensures { result ≡ kind_begins_phrase kind }
{
    match kind {
        TokenKind::Identifier
        | TokenKind::Integer
        | TokenKind::String
        | TokenKind::Quoted
        | TokenKind::If
        | TokenKind::While
        | TokenKind::Repeat
        | TokenKind::For
        | TokenKind::Foreach
        | TokenKind::OpenBlock
        | TokenKind::Begin
        | TokenKind::Return
        | TokenKind::Go
        | TokenKind::Goto
        | TokenKind::Lambda => true,
        _ => false,
    }
}

/// An expr begins with the token.
pub(crate) fn begins(kind: TokenKind) -> bool
    ensures { result ≡ kind_begins kind }
{
    match kind {
        TokenKind::Word(_) | TokenKind::Open | TokenKind::Not => true,
        TokenKind::Infix(operator) => match operator {
            Operator::Plus | Operator::Minus => true,
            _ => false,
        },
        _ => begins_phrase(kind),
    }
}

/// What has begun waits for an operand.
pub(crate) fn want(stack: &mut Stack, frame: Frame) -> Step
    requires { length stack.old < 2240 }
    ensures { shown_step result stack.new ≡ wants frame stack.old }
{
    stack.push(frame);
    Step::Goes(Place::Want)
}

/// What has begun waits for an operand, where an operand may stand that is not of a higher level than this.
pub(crate) fn want_up_to(stack: &mut Stack, level: u8, frame: Frame) -> Step
    requires { length stack.old < 2240 }
    ensures { shown_step result stack.new ≡ allowed level stack.old (wants frame stack.old) }
{
    if lowest(stack) <= level {
        want(stack, frame)
    } else {
        Step::Refused
    }
}

/// A word of the three that stands as a name.
fn word_begins(stack: &mut Stack) -> Step
    requires { length stack.old < 2240 }
    ensures { shown_step result stack.new ≡ allowed 9 stack.old (machine.Moves place.Named stack.old) }
{
    if lowest(stack) <= 9 {
        Step::Goes(Place::Named)
    } else {
        Step::Refused
    }
}

/// An operand begins with the token.
pub(crate) fn begin(stack: &mut Stack, kind: TokenKind) -> Step
    requires { length stack.old < 2240 }
    ensures { shown_step result stack.new ≡ machine_begin stack.old kind }
{
    match kind {
        TokenKind::Identifier => Step::Goes(Place::Named),
        TokenKind::Word(_) => word_begins(stack),
        TokenKind::Integer | TokenKind::String | TokenKind::Quoted => {
            Step::Goes(Place::Has(false))
        }
        TokenKind::Open => want_up_to(stack, 9, Frame::Enclosed),
        TokenKind::Infix(operator) => match operator {
            Operator::Plus | Operator::Minus => want_up_to(stack, 5, Frame::Side(6)),
            _ => Step::Refused,
        },
        TokenKind::Not => want_up_to(stack, 3, Frame::Tail(3)),
        TokenKind::If => want(stack, Frame::Condition),
        TokenKind::While => want(stack, Frame::Doing),
        TokenKind::Repeat => want(stack, Frame::Repeated),
        TokenKind::For => Step::Goes(Place::AtFor),
        TokenKind::Foreach => Step::Goes(Place::AtEach),
        TokenKind::OpenBlock => Step::Goes(Place::AtPiece(Group::Block)),
        TokenKind::Begin => Step::Goes(Place::AtDeclarations),
        TokenKind::Return => Step::Goes(Place::Returned),
        TokenKind::Go => Step::Goes(Place::AtGo),
        TokenKind::Goto => Step::Goes(Place::AtGoal),
        TokenKind::Lambda => Step::Goes(Place::AtParameters(Listing::Begun)),
        _ => Step::Refused,
    }
}
