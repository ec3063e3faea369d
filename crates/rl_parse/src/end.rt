//! An operand has come: it goes on, or what has begun ends with it.

ghost use Rattle.std.specs.Prelude.{◌≡◌, ◌<◌, ◌≤◌, List, length, false};
ghost use Rattle.rl_parse.specs.Frames.{is_lambda_frame, level_of_frame};
ghost use Rattle.rl_parse.specs.Kinds.{kind_goes};
ghost use Rattle.rl_parse.specs.Machine.{ends_with_operand, machine_after, machine_closed, machine_pieced, machine_pushed, machine_whole, shown_step};
ghost use Rattle.rl_lex.specs.declared.kind.TokenKind.TheVariants as kind;
ghost use Rattle.rl_parse.specs.declared.frame.Frame.{Frame};
ghost use Rattle.rl_parse.specs.declared.frame.Frame.TheVariants as the_frame;

use crate::begin::want;
use crate::frame::{Frame, Group};
use crate::level::{frame_level, goes, operator_level};
use crate::place::{Place, Step, What};
use crate::stack::Stack;
use rl_lex::{TokenKind, Way};

/// An operand goes on with an operator.
fn go_on(stack: &mut Stack, kind: TokenKind) -> Step
    requires { length stack.old < 2240 }
    ensures { shown_step result stack.new ≡ machine_pushed stack.old kind }
{
    match kind {
        TokenKind::Infix(operator) => want(stack, Frame::Side(operator_level(operator) + 1)),
        TokenKind::Word(_) => want(stack, Frame::Side(5)),
        TokenKind::Power => want(stack, Frame::Tail(7)),
        TokenKind::Dot => want(stack, Frame::Tail(8)),
        _ => Step::Refused,
    }
}

/// Pieces end, or another may begin.
pub(crate) fn end_piece(stack: &mut Stack, group: Group, kind: TokenKind) -> Step
    ensures { shown_step result stack.new ≡ machine_pieced stack.old group kind }
{
    match kind {
        TokenKind::Separating(_) => Step::Goes(Place::AtPiece(group)),
        TokenKind::CloseBlock => match group {
            Group::Block => Step::Goes(Place::Has(false)),
            Group::Prog => Step::Refused,
        },
        TokenKind::End => match group {
            Group::Prog => Step::Goes(Place::Has(false)),
            Group::Block => Step::Refused,
        },
        _ => Step::Refused,
    }
}

/// Whether a frame ends with its operand before the token.
fn ends(frame: Frame, kind: TokenKind) -> bool
    ensures { result ≡ ends_with_operand frame kind }
{
    match frame {
        Frame::Side(_) | Frame::Tail(_) | Frame::Lambda => true,
        Frame::Consequent => match kind {
            TokenKind::Else => false,
            _ => true,
        },
        _ => false,
    }
}

fn is_lambda(frame: Frame) -> bool
    ensures { result ≡ is_lambda_frame frame }
{
    match frame {
        Frame::Lambda => true,
        _ => false,
    }
}

/// `)` behind an operand in parentheses.
fn close_enclosed(lambda: bool) -> Step
    ensures { (fs : List Frame) → shown_step result fs ≡ machine_closed the_frame.Enclosed fs lambda kind.Close }
{
    if lambda {
        Step::Goes(Place::Shut)
    } else {
        Step::Goes(Place::Has(false))
    }
}

/// The token behind the operand of a frame that waits for one.
fn close(stack: &mut Stack, frame: Frame, lambda: bool, kind: TokenKind) -> Step
    requires { length stack.old < 2240 }
    ensures { shown_step result stack.new ≡ machine_closed frame stack.old lambda kind }
{
    match (frame, kind) {
        (Frame::Enclosed, TokenKind::Close) => close_enclosed(lambda),
        (Frame::Condition, TokenKind::Then) => want(stack, Frame::Consequent),
        (Frame::Consequent, TokenKind::Else) => want(stack, Frame::Tail(0)),
        (Frame::Doing, TokenKind::Does(Way::Do)) => want(stack, Frame::Tail(0)),
        (Frame::Repeated, TokenKind::Until) => want(stack, Frame::Tail(0)),
        (Frame::From, TokenKind::Colon) => want(stack, Frame::Doing),
        (Frame::Each, TokenKind::Does(_)) => want(stack, Frame::Tail(0)),
        (Frame::Arguments, TokenKind::Comma) => want(stack, Frame::Arguments),
        (Frame::Arguments, TokenKind::Close) => Step::Goes(Place::Has(false)),
        (Frame::Pieces(group), _) => end_piece(stack, group, kind),
        _ => Step::Refused,
    }
}

/// The statement ends, or does not.
fn end_statement(kind: TokenKind) -> Step
    ensures { (fs : List Frame) → shown_step result fs ≡ machine_whole kind }
{
    match kind {
        TokenKind::Separating(separator) => Step::Ends(What::Form, separator),
        _ => Step::Refused,
    }
}

/// An operand has come, a lambda or not.
pub(crate) fn end_operand(stack: &mut Stack, lambda: bool, kind: TokenKind) -> Step
    requires { length stack.old < 2240 }
    ensures { shown_step result stack.new ≡ machine_after stack.old lambda kind }
{
    let mut lambda = lambda;
    while let Some(frame) = stack.pop() {
        if goes(frame_level(frame), kind) {
            stack.push(frame);
            return go_on(stack, kind);
        }
        if !ends(frame, kind) {
            return close(stack, frame, lambda, kind);
        }
        lambda = is_lambda(frame);
    }
    if goes(0, kind) {
        go_on(stack, kind)
    } else {
        end_statement(kind)
    }
}
