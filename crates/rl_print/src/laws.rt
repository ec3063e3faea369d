//! Laws of printing. A law is the contract of a function that does nothing.
ghost use Rattle.rl_print.specs.Laws.{PiecesGoOn};

/// Pieces that are printed one after another are printed as one piece, and a front of it where the last is cut off.
pub fn pieces_go_on()
    ensures { PiecesGoOn }
{}
