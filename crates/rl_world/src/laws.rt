//! Laws of a world. A law is the contract of a function that does nothing.
ghost use Rattle.rl_world.specs.Bounds.{AreBoundsKept, RoomIsEnough};
ghost use Rattle.rl_world.specs.Counts.{CountsAreTaken};
ghost use Rattle.rl_world.specs.TextsKept.{AreTextsKept};

use rl_cells::laws::objects_are_added;

/// Where `World::room` answered Ok, the cells have room: so none of the calls that make that object answers `Full`.
pub fn room_is_enough()
    ensures { RoomIsEnough }
{}

/// Each call of a world and of its cells keeps the bounds: `World::open` begins with them, and what makes an object asks
/// for room first.
pub fn bounds_are_kept()
    ensures { AreBoundsKept }
{
    objects_are_added();
}

/// The texts of errors stay, whatever is made, changed or released: so `World::error_text` may be asked for all along a run.
pub fn texts_are_kept()
    ensures { AreTextsKept }
{}

/// A turn, and the cells of an object, are taken, and nothing else of the counts changes; so are several, one after the other.
pub fn counts_are_taken()
    ensures { CountsAreTaken }
{}
