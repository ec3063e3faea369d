//! The levels of operators and operands.

ghost use Rattle.std.specs.Prelude.{◌≡◌, ◌≤◌};
ghost use Rattle.rl_parse.specs.Frames.{level_of_frame, lowest_of, nested_outside};
ghost use Rattle.rl_parse.specs.Kinds.{kind_goes, level_of_operator};

use crate::frame::Frame;
use crate::stack::Stack;
use rl_lex::{Operator, TokenKind};

/// The level of an operator.
pub(crate) fn operator_level(operator: Operator) -> u8
    ensures value { result ≡ level_of_operator operator }
    ensures low { result ≤ 6 }
{
    match operator {
        Operator::Or => 1,
        Operator::And => 2,
        Operator::Plus | Operator::Minus => 5,
        Operator::Times | Operator::Divide => 6,
        _ => 4,
    }
}

/// Whether an operand of this level goes on with the token.
pub(crate) fn goes(level: u8, kind: TokenKind) -> bool
    ensures { result ≡ kind_goes level kind }
{
    match kind {
        TokenKind::Infix(operator) => level <= operator_level(operator),
        TokenKind::Word(_) => level <= 4,
        TokenKind::Power => level <= 7,
        TokenKind::Dot => level <= 8,
        _ => false,
    }
}

/// The level of the operand that a frame waits for.
pub(crate) fn frame_level(frame: Frame) -> u8
    ensures { result ≡ level_of_frame frame }
{
    match frame {
        Frame::Side(n) | Frame::Tail(n) => n,
        _ => 0,
    }
}

/// The level of the operand that the innermost waits for.
pub(crate) fn lowest(stack: &mut Stack) -> u8
    ensures level { result ≡ lowest_of stack.old }
    ensures same { stack.new ≡ stack.old }
{
    match stack.pop() {
        Some(frame) => {
            stack.push(frame);
            frame_level(frame)
        }
        None => 0,
    }
}

/// How many are unfinished in the innermost.
pub(crate) fn nested_outside(stack: &mut Stack) -> u16
    ensures nested { result ≡ nested_outside stack.old }
    ensures same { stack.new ≡ stack.old }
{
    match stack.pop() {
        Some(frame) => {
            let nested = stack.nested();
            stack.push(frame);
            nested
        }
        None => 0,
    }
}
