//! What a step of a run answers.
use rl_tags::Val;
use rl_world::Stop;

/// What came of a step: there is more to do; a function, by the name that is called, is to be applied to so many of the newest
/// values that wait; a name got a definition; the value with which an activation ends; an error by its number and message; or
/// the run stops.
#[derive(Clone, Copy)]
pub enum IStep {
    Again,
    Call(Val, u32),
    Defined(Val),
    Done(Val),
    Error(Val, Val),
    Stop(Stop),
}
