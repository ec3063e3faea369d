//! What forms are, and whether they are built.
ghost use Rattle.std.specs.Prelude.{◌≡◌, true, map, IfOk};
ghost use Rattle.std.specs.List.{All, list_all};
ghost use Rattle.rl_text.specs.Datum.{Pair, nil};
ghost use Rattle.rl_forms.specs.BuiltForms.{is_built};
ghost use Rattle.rl_forms.specs.KnownData.{IsKnown, IsRunning, datum_in};
ghost use Rattle.rl_forms.specs.SeenForms.{IsForm, IsListOf, IsTest, is_name_datum};

use crate::memory::{Look, look_at};
use rl_io::OutOfMemory;
use rl_tags::{CONS, NIL, PRIN1, PRIN2, PRINT, QUOTE, T, TERPRI, Val};
use rl_world::World;
use std::alloc::Global;

/// A function that prints its argument.
#[derive(Clone, Copy)]
pub(crate) enum Printer {
    Print,
    Prin1,
    Prin2,
}

/// A form. `Constant` stands for itself; the others have the arguments of the call, not yet evaluated.
#[derive(Clone, Copy)]
pub(crate) enum Form {
    Constant,
    EndLine,
    Quoted(Val),
    Print(Printer, Val),
    Cons(Val, Val),
    Unbuilt,
}

/// The elements of a list of at most two.
#[derive(Clone, Copy)]
enum Arguments {
    None,
    One(Val),
    Two(Val, Val),
    Other,
}

/// Whether all forms are built.
pub(crate) fn all_built(alloc: Global, world: &World, forms: &[Val]) -> Result<bool, OutOfMemory>
    requires running { IsRunning world.now }
    requires known { All (IsKnown world.now) forms.now }
    ensures { IfOk result (λ b. b ≡ list_all is_built (map (datum_in world.now) forms.now)) }
{
    let mut left = Vec::from_slice(alloc, forms)?;
    while let Some(form) = left.pop() {
        if !test(world, &mut left, form)? {
            return Ok(false);
        }
    }
    Ok(true)
}

/// Tests a form but for its arguments that are forms, which are left to be tested.
fn test(world: &World, left: &mut Vec<Val>, form: Val) -> Result<bool, OutOfMemory>
    requires running { IsRunning world.now }
    requires known { IsKnown world.now form }
    requires left { All (IsKnown world.now) left.old.items }
    ensures { IfOk result (λ b. IsTest world.now (datum_in world.now form) left.old.items left.new.items b) }
{
    match form_of(world, form) {
        Form::Constant => Ok(true),
        Form::EndLine => Ok(true),
        Form::Quoted(_) => Ok(true),
        Form::Print(_, a) => {
            left.push(a)?;
            Ok(true)
        }
        Form::Cons(a, b) => {
            left.push(a)?;
            left.push(b)?;
            Ok(true)
        }
        Form::Unbuilt => Ok(false),
    }
}

/// What a form is.
pub(crate) fn form_of(world: &World, form: Val) -> Form
    requires running { IsRunning world.now }
    requires known { IsKnown world.now form }
    ensures { IsForm world.now (datum_in world.now form) result }
{
    match look_at(world, form) {
        Look::Other => Form::Constant,
        Look::Identifier => name_form(world, form),
        Look::Pair(head, list) => call_form(world, head, list),
    }
}

/// What the form that is a name is.
fn name_form(world: &World, name: Val) -> Form
    requires running { IsRunning world.now }
    requires known { IsKnown world.now name }
    requires name { is_name_datum (datum_in world.now name) ≡ true }
    ensures { IsForm world.now (datum_in world.now name) result }
{
    let _ = world;
    if name == NIL {
        return Form::Constant;
    }
    if name == T {
        return Form::Constant;
    }
    Form::Unbuilt
}

/// What the pair of this CAR and this CDR is as a form.
fn call_form(world: &World, head: Val, list: Val) -> Form
    requires running { IsRunning world.now }
    requires head_known { IsKnown world.now head }
    requires list_known { IsKnown world.now list }
    ensures { IsForm world.now (Pair (datum_in world.now head) (datum_in world.now list)) result }
{
    match arguments_of(world, list) {
        Arguments::None => {
            if head == TERPRI {
                Form::EndLine
            } else {
                Form::Unbuilt
            }
        }
        Arguments::One(a) => one_form(world, head, a),
        Arguments::Two(a, b) => {
            if head == CONS {
                Form::Cons(a, b)
            } else {
                Form::Unbuilt
            }
        }
        Arguments::Other => Form::Unbuilt,
    }
}

/// What the call with one argument is.
fn one_form(world: &World, head: Val, a: Val) -> Form
    requires running { IsRunning world.now }
    requires head_known { IsKnown world.now head }
    requires known { IsKnown world.now a }
    ensures { IsForm world.now (Pair (datum_in world.now head) (Pair (datum_in world.now a) nil)) result }
{
    let _ = world;
    if head == QUOTE {
        return Form::Quoted(a);
    }
    if head == PRINT {
        return Form::Print(Printer::Print, a);
    }
    if head == PRIN1 {
        return Form::Print(Printer::Prin1, a);
    }
    if head == PRIN2 {
        return Form::Print(Printer::Prin2, a);
    }
    Form::Unbuilt
}

/// The elements of a list of at most two.
fn arguments_of(world: &World, list: Val) -> Arguments
    requires running { IsRunning world.now }
    requires known { IsKnown world.now list }
    ensures { IsListOf world.now (datum_in world.now list) result }
{
    if list == NIL {
        return Arguments::None;
    }
    match look_at(world, list) {
        Look::Other => Arguments::Other,
        Look::Identifier => Arguments::Other,
        Look::Pair(first, rest) => arguments_from(world, first, rest),
    }
}

/// The elements of a list of one or two, which begins with this one.
fn arguments_from(world: &World, first: Val, rest: Val) -> Arguments
    requires running { IsRunning world.now }
    requires first_known { IsKnown world.now first }
    requires rest_known { IsKnown world.now rest }
    ensures { IsListOf world.now (Pair (datum_in world.now first) (datum_in world.now rest)) result }
{
    if rest == NIL {
        return Arguments::One(first);
    }
    match look_at(world, rest) {
        Look::Other => Arguments::Other,
        Look::Identifier => Arguments::Other,
        Look::Pair(second, end) => {
            if end == NIL {
                Arguments::Two(first, second)
            } else {
                Arguments::Other
            }
        }
    }
}
