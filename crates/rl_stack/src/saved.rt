//! What the stack keeps of bindings.
use rl_tags::Val;

/// A binding: its variable, whether it is local, the value that it hid, None where the variable had none, and the levels that
/// its undoing leaves. Or the beginning of a function, by its pointer, or of an EVAL, an APPLY or an ERRORSET.
#[derive(Clone, Copy)]
pub enum Saved {
    Binding(Val, bool, Option<Val>, u32),
    Mark(Option<Val>),
}
