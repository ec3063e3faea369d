//! The tokens of RLISP over bytes: `next_token` and `recognize`.
#![tactic(auto)]

mod atom;
mod gap;
mod kind;
mod mark;
mod nest;
mod next;
mod spelling;
mod word;

pub use gap::gap_end;
pub use kind::{KindWord, ModeWord, Operator, Separator, TokenKind, Way, Worded};
pub use nest::Nest;
pub use next::{Next, Token, next_token};
pub use word::recognize;
