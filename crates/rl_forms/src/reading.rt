//! The forms of a file.
ghost use Rattle.std.specs.Prelude.{◌≡◌, IfOk, IfSome};
ghost use Rattle.rl_read.specs.Frames.{CanMake};
ghost use Rattle.rl_forms.specs.Meaning.{data_in};
ghost use Rattle.rl_forms.specs.KnownData.{IsRunning};
ghost use Rattle.rl_forms.specs.ReadForms.{AreRead, data_told};

use rl_io::OutOfMemory;
use rl_read::laws::{reading_is_of_text, what_is_read_is_the_datum};
use rl_read::{ReadFault, SliceBytes, read_form};
use rl_tags::Val;
use rl_text::laws::{blank_text_has_none, unreadable_at_first_byte, what_is_found_is_spelled};
use rl_world::World;
use std::alloc::Global;

/// The forms that the bytes spell; None where they spell none. `OutOfMemory` also where a cell, a turn or a level is wanting.
pub(crate) fn forms_in(
    alloc: Global,
    world: &mut World,
    bytes: &[u8],
) -> Result<Option<Vec<Val>>, OutOfMemory>
    requires running { IsRunning world.old }
    requires able { CanMake world.old }
    ensures read { IfOk result (λ forms. data_told world.new forms ≡ data_in bytes.now) }
    ensures forms { IfOk result (λ forms. IfSome forms (λ forms. AreRead world.old world.new forms.items)) }
{
    reading_is_of_text();
    what_is_read_is_the_datum();
    what_is_found_is_spelled();
    blank_text_has_none();
    unreadable_at_first_byte();
    let mut text = SliceBytes::new(bytes);
    let mut forms = Vec::new(alloc);
    'forms: loop {
        match read_form(world, &mut text) {
            Ok(form) => forms.push(form)?,
            Err(ReadFault::End) => return Ok(Some(forms)),
            Err(ReadFault::Syntax(_)) => return Ok(None),
            Err(ReadFault::Stop(_)) => return Err(OutOfMemory),
        }
    }
}
