//! What a world means, and the calls that take turns, levels and cells.
#![tactic(auto)]

mod errors;
mod expansions;
mod functions;
mod identifiers;
pub mod laws;
mod levels;
mod lines;
mod names;
mod objects;
mod opening;
mod outside;
mod printing;
mod reading;
mod turns;
mod variables;

pub use errors::fail;
pub use expansions::{begin_expansion, end_expansion, in_expansion};
pub use functions::{function, set_word, word};
pub use identifiers::{
    definition, kind, name, properties, set_definition, set_kind, set_properties,
};
pub use levels::{deeper, shallower, walk_pop, walk_push};
pub use lines::{column, line_length, set_line_length};
pub use names::{gensym, identifier, identifier_or_nil, symbol};
pub use objects::{
    integer, pair, parts, place, places, set_car, set_cdr, set_place, string, vector,
};
pub use opening::{open, opened};
pub use outside::{flush, next_byte, note_byte, peek, put_back, put_byte};
pub use printing::{print1, print2};
pub use reading::read;
pub use turns::turn;
pub use variables::{cell, set_cell};
