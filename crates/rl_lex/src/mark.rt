//! Marks of one byte and of two.

ghost use Rattle.std.specs.Prelude.{◌≡◌, option_map};
ghost use Rattle.rl_grammar.specs.Written.{short_mark, long_mark};
ghost use Rattle.rl_lex.specs.Kinds.{kind_of_token};

use crate::kind::{Operator, Separator, TokenKind};

/// What a mark of one byte is; None where the byte is no mark.
pub(crate) fn short_mark(b: u8) -> Option<TokenKind>
    ensures { result ≡ option_map kind_of_token (short_mark b) }
{
    match b {
        b';' => Some(TokenKind::Separating(Separator::Semicolon)),
        b'$' => Some(TokenKind::Separating(Separator::Dollar)),
        b'(' => Some(TokenKind::Open),
        b')' => Some(TokenKind::Close),
        b',' => Some(TokenKind::Comma),
        b':' => Some(TokenKind::Colon),
        b'.' => Some(TokenKind::Dot),
        b'+' => Some(TokenKind::Infix(Operator::Plus)),
        b'-' => Some(TokenKind::Infix(Operator::Minus)),
        b'*' => Some(TokenKind::Infix(Operator::Times)),
        b'/' => Some(TokenKind::Infix(Operator::Divide)),
        b'=' => Some(TokenKind::Infix(Operator::Equal)),
        b'<' => Some(TokenKind::Infix(Operator::Less)),
        b'>' => Some(TokenKind::Infix(Operator::Greater)),
        _ => None,
    }
}

/// What a mark of these two bytes is; None where they are none.
pub(crate) fn long_mark(b: u8, c: u8) -> Option<TokenKind>
    ensures { result ≡ option_map kind_of_token (long_mark b c) }
{
    match b {
        b':' => if c == b'=' {
            Some(TokenKind::Assign)
        } else {
            None
        },
        b'>' => at_least_or_close(c),
        b'<' => at_most_or_open(c),
        b'*' => if c == b'*' {
            Some(TokenKind::Power)
        } else {
            None
        },
        _ => None,
    }
}

/// `>=` and `>>`, by the second byte.
fn at_least_or_close(c: u8) -> Option<TokenKind>
    ensures { result ≡ option_map kind_of_token (long_mark 62 c) }
{
    match c {
        b'=' => Some(TokenKind::Infix(Operator::AtLeast)),
        b'>' => Some(TokenKind::CloseBlock),
        _ => None,
    }
}

/// `<=` and `<<`, by the second byte.
fn at_most_or_open(c: u8) -> Option<TokenKind>
    ensures { result ≡ option_map kind_of_token (long_mark 60 c) }
{
    match c {
        b'=' => Some(TokenKind::Infix(Operator::AtMost)),
        b'<' => Some(TokenKind::OpenBlock),
        _ => None,
    }
}
