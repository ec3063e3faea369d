//! Laws of the meaning of a run, and of what is appended to a sink. A law is the contract of a function that does nothing.
ghost use Rattle.rl_forms.specs.Laws.{AllAndNothingAreFronts, UnbuiltMeansUnspelled};

use rl_text::laws::{blank_text_has_none, what_is_found_is_spelled};

/// A file whose meaning is Unbuilt is too long, or its bytes spell no list of built forms.
pub fn unbuilt_files_spell_no_built_forms()
    ensures { UnbuiltMeansUnspelled }
{
    what_is_found_is_spelled();
    blank_text_has_none();
}

/// Where all of a text was appended to a sink, or nothing, a front of it was.
pub fn all_and_nothing_are_fronts()
    ensures { AllAndNothingAreFronts }
{}
