//! Laws of one run, and of two. A law is the contract of a function that does nothing.
ghost use Rattle.rl_agrees.specs.Laws.{RunsGoOn, OnlyStatementsLeave, MarksStay, HeadsStay, CodeAgrees, WalksAgree};
ghost use Rattle.rl_agrees.specs.Expanding.{PlainExpandsAlone};
ghost use Rattle.rl_agrees.specs.Identity.{ACodeIsRight};

use rl_text::laws::{related_makers_end_related, what_a_maker_keeps_stands};
use std::marker::Brand;

/// The state behind a job, and behind a run, is later than the one before: what was printed and noted, the first event, functions and noted changes stay, and the codes that are left stand.
pub fn runs_go_on()
    ensures { RunsGoOn }
{
    what_a_maker_keeps_stands::<Brand>();
}

/// Only a statement of a PROG leaves by GO or RETURN.
pub fn only_statements_leave()
    ensures { OnlyStatementsLeave }
{
    what_a_maker_keeps_stands::<Brand>();
}

/// Where all functions are walked, the bindings and marks before a job stay below those that it leaves; only values of bindings change.
pub fn marks_stay()
    ensures { MarksStay }
{
    what_a_maker_keeps_stands::<Brand>();
}

/// Where all functions are walked and nothing turned or strayed by the end of a job, the names that the body of a running function rests on have equal definitions before and after, or are no FEXPR and no MACRO and are reached through no macro.
pub fn heads_stay()
    ensures { HeadsStay }
{
    what_a_maker_keeps_stands::<Brand>();
}

/// Where two runs stand side by side, an expansion of a plain macro in the right one leaves them so.
pub fn plain_expansions_stand_alone()
    ensures { PlainExpandsAlone }
{}

/// A run in which code runs agrees with the walk of the same program, where each code is right: the same endings, output, notes, input and turns until the walk's first event, and of what they show until one stops for cells or levels one begins with the other. Beside a walk with no event the run stops so only where the walk has no such bound, or stops so too.
pub fn code_agrees()
    ensures { CodeAgrees }
{
    rl_meaning::laws::fuel_is_enough();
    what_a_maker_keeps_stands::<Brand>();
    related_makers_end_related::<Brand>();
}

/// Two walks from states side by side agree, of which the left one may lack local bindings that code keeps in slots: where a form is walked, none above the newest mark.
pub fn walks_agree()
    ensures { WalksAgree }
{
    rl_meaning::laws::fuel_is_enough();
    what_a_maker_keeps_stands::<Brand>();
    related_makers_end_related::<Brand>();
}

/// There is code that is right, that of the identity, and code that is not; and there is a sound state in which right code runs, and from which each run with code agrees with the walk.
pub fn a_code_is_right()
    ensures { ACodeIsRight }
{
    code_agrees();
}
