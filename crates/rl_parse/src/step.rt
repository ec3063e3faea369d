//! A token at each place.

ghost use Rattle.std.specs.Prelude.{◌≡◌, ◌+◌, ◌<◌, List, ◌∷◌, length, true};
ghost use Rattle.rl_parse.specs.Machine.{machine_alone, machine_declarations, machine_name, machine_named, machine_opened, machine_piece, machine_piece_begins, machine_returned, machine_shut, shown_step};
ghost use Rattle.rl_parse.specs.Machine.{is_at_word, is_before_expr, listing_ends, listing_on, machine_begin, machine_for, machine_go, machine_identifier, machine_in, machine_index, machine_listing, machine_names, wants};
ghost use Rattle.rl_parse.specs.Machine.{machine_body, machine_end, machine_file, machine_files, machine_kind, machine_mode, machine_start, machine_step};
ghost use Rattle.rl_parse.specs.Machine.{machine_admits, machine_bounded, machine_depth, machine_within};
ghost use Rattle.rl_parse.specs.Machine as machine;
ghost use Rattle.rl_parse.specs.declared.frame.Frame.{Frame};
ghost use Rattle.rl_parse.specs.declared.frame.Frame.TheVariants as frame;
ghost use Rattle.rl_parse.specs.declared.place.Place.TheVariants as place;

use crate::begin::{begin, begins, begins_phrase, want, want_up_to};
use crate::end::{end_operand, end_piece};
use crate::frame::{Frame, Group};
use crate::level::nested_outside;
use crate::place::{Listing, Place, Step, What};
use crate::stack::Stack;
use rl_lex::{Separator, TokenKind};

/// The most that may be unfinished at a token.
const MOST_NESTED: u16 = 200;

/// A name has come that begins no `id prim`.
fn name_alone(stack: &mut Stack, kind: TokenKind) -> Step
    requires { length stack.old < 2240 }
    ensures { shown_step result stack.new ≡ machine_alone stack.old kind }
{
    match kind {
        TokenKind::Assign => want_up_to(stack, 0, Frame::Tail(0)),
        TokenKind::Open => Step::Goes(Place::Opened),
        _ => end_operand(stack, false, kind),
    }
}

/// What has begun, and then an operand.
fn begin_in(stack: &mut Stack, frame: Frame, kind: TokenKind) -> Step
    requires { length stack.old + 1 < 2240 }
    ensures { shown_step result stack.new ≡ machine_begin (frame ∷ stack.old) kind }
{
    stack.push(frame);
    begin(stack, kind)
}

/// A name has come.
fn after_name(stack: &mut Stack, kind: TokenKind) -> Step
    requires { length stack.old + 1 < 2240 }
    ensures { shown_step result stack.new ≡ machine_named stack.old kind }
{
    if begins_phrase(kind) {
        begin_in(stack, Frame::Tail(10), kind)
    } else {
        name_alone(stack, kind)
    }
}

/// What is called and `(` have come.
fn after_open(stack: &mut Stack, kind: TokenKind) -> Step
    requires { length stack.old + 1 < 2240 }
    ensures { shown_step result stack.new ≡ machine_opened stack.old kind }
{
    if let TokenKind::Close = kind {
        return Step::Goes(Place::Has(false));
    }
    if begins(kind) {
        begin_in(stack, Frame::Arguments, kind)
    } else {
        Step::Refused
    }
}

/// A lambda in parentheses has come.
fn after_shut(stack: &mut Stack, kind: TokenKind) -> Step
    requires { length stack.old < 2240 }
    ensures { shown_step result stack.new ≡ machine_shut stack.old kind }
{
    if let TokenKind::Open = kind {
        return Step::Goes(Place::Opened);
    }
    end_operand(stack, false, kind)
}

/// `return` has come.
fn after_return(stack: &mut Stack, kind: TokenKind) -> Step
    requires { length stack.old + 1 < 2240 }
    ensures { shown_step result stack.new ≡ machine_returned stack.old kind }
{
    if begins(kind) {
        begin_in(stack, Frame::Tail(0), kind)
    } else {
        end_operand(stack, false, kind)
    }
}

/// A piece begins; in a PROG a name may be a label.
fn piece_begins(stack: &mut Stack, group: Group, kind: TokenKind) -> Step
    requires { length stack.old + 1 < 2240 }
    ensures { shown_step result stack.new ≡ machine_piece_begins stack.old group kind }
{
    match (group, kind) {
        (Group::Prog, TokenKind::Identifier) => Step::Goes(Place::AtName(Group::Prog)),
        _ => begin_in(stack, Frame::Pieces(group), kind),
    }
}

/// A piece may begin.
fn at_piece(stack: &mut Stack, group: Group, kind: TokenKind) -> Step
    requires { length stack.old + 1 < 2240 }
    ensures { shown_step result stack.new ≡ machine_piece stack.old group kind }
{
    if begins(kind) {
        piece_begins(stack, group, kind)
    } else {
        end_piece(stack, group, kind)
    }
}

/// A name has come that may be a label.
fn at_name(stack: &mut Stack, group: Group, kind: TokenKind) -> Step
    requires { length stack.old + 2 < 2240 }
    ensures { shown_step result stack.new ≡ machine_name stack.old group kind }
{
    if let TokenKind::Colon = kind {
        return Step::Goes(Place::AtPiece(group));
    }
    stack.push(Frame::Pieces(group));
    after_name(stack, kind)
}

/// `begin` and declarations have come.
fn at_declarations(stack: &mut Stack, kind: TokenKind) -> Step
    requires { length stack.old + 1 < 2240 }
    ensures { shown_step result stack.new ≡ machine_declarations stack.old kind }
{
    if let TokenKind::Scalar = kind {
        return Step::Goes(Place::AtScalar);
    }
    at_piece(stack, Group::Prog, kind)
}

/// A name of `scalar` has come.
fn at_names(kind: TokenKind) -> Step
    ensures { (fs : List Frame) → shown_step result fs ≡ machine_names fs kind }
{
    match kind {
        TokenKind::Comma => Step::Goes(Place::AtScalar),
        TokenKind::Separating(Separator::Semicolon) => Step::Goes(Place::AtDeclarations),
        _ => Step::Refused,
    }
}

/// A name must come, and leads to this place.
fn at_identifier(next: Place, kind: TokenKind) -> Step
    ensures { (fs : List Frame) → shown_step result fs ≡ machine_identifier fs next kind }
{
    match kind {
        TokenKind::Identifier => Step::Goes(next),
        _ => Step::Refused,
    }
}

/// `for` has come.
fn at_for(kind: TokenKind) -> Step
    ensures { (fs : List Frame) → shown_step result fs ≡ machine_for fs kind }
{
    match kind {
        TokenKind::Each => Step::Goes(Place::AtEach),
        TokenKind::Identifier => Step::Goes(Place::AtIndex),
        _ => Step::Refused,
    }
}

/// `go` has come.
fn at_go(kind: TokenKind) -> Step
    ensures { (fs : List Frame) → shown_step result fs ≡ machine_go fs kind }
{
    match kind {
        TokenKind::To => Step::Goes(Place::AtGoal),
        TokenKind::Identifier => Step::Goes(Place::Has(false)),
        _ => Step::Refused,
    }
}

/// `for` and its variable have come.
fn at_index(stack: &mut Stack, kind: TokenKind) -> Step
    requires { length stack.old < 2240 }
    ensures { shown_step result stack.new ≡ machine_index stack.old kind }
{
    match kind {
        TokenKind::Assign => want(stack, Frame::From),
        _ => Step::Refused,
    }
}

/// `for each` and its variable have come.
fn at_in(stack: &mut Stack, kind: TokenKind) -> Step
    requires { length stack.old < 2240 }
    ensures { shown_step result stack.new ≡ machine_in stack.old kind }
{
    match kind {
        TokenKind::In => want(stack, Frame::Each),
        _ => Step::Refused,
    }
}

/// Where a parameter list goes on; None where it does not.
fn next_listing(listing: Listing, kind: TokenKind) -> Option<Listing>
    ensures { result ≡ listing_on listing kind }
{
    match (listing, kind) {
        (Listing::Begun, TokenKind::Identifier) => Some(Listing::Over),
        (Listing::Begun, TokenKind::Open) => Some(Listing::Opening),
        (Listing::Opening, TokenKind::Close) => Some(Listing::Over),
        (Listing::Opening, TokenKind::Identifier) => Some(Listing::Naming),
        (Listing::Naming, TokenKind::Comma) => Some(Listing::Parted),
        (Listing::Naming, TokenKind::Close) => Some(Listing::Over),
        (Listing::Parted, TokenKind::Identifier) => Some(Listing::Naming),
        _ => None,
    }
}

/// Whether the parameter list ends with the token.
fn ends_listing(listing: Listing, kind: TokenKind) -> bool
    ensures { result ≡ listing_ends listing kind }
{
    match (listing, kind) {
        (Listing::Begun, TokenKind::Separating(Separator::Semicolon)) => true,
        (Listing::Over, TokenKind::Separating(Separator::Semicolon)) => true,
        _ => false,
    }
}

/// The parameter list of a lambda.
fn at_parameters(stack: &mut Stack, listing: Listing, kind: TokenKind) -> Step
    requires { length stack.old < 2240 }
    ensures { shown_step result stack.new ≡ machine_listing listing stack.old place.AtParameters (wants frame.Lambda stack.old) kind }
{
    if ends_listing(listing, kind) {
        return want(stack, Frame::Lambda);
    }
    match next_listing(listing, kind) {
        Some(next) => Step::Goes(Place::AtParameters(next)),
        None => Step::Refused,
    }
}

/// The parameter list of a procedure.
fn at_listing(listing: Listing, kind: TokenKind) -> Step
    ensures { (fs : List Frame) → shown_step result fs ≡ machine_listing listing fs place.AtListing (machine.Moves place.Want fs) kind }
{
    if ends_listing(listing, kind) {
        return Step::Goes(Place::Want);
    }
    match next_listing(listing, kind) {
        Some(next) => Step::Goes(Place::AtListing(next)),
        None => Step::Refused,
    }
}

/// A procedure or an expr begins.
fn at_body(stack: &mut Stack, kind: TokenKind) -> Step
    requires { length stack.old < 2240 }
    ensures { shown_step result stack.new ≡ machine_body stack.old kind }
{
    match kind {
        TokenKind::Kind(_) => Step::Goes(Place::AtKind),
        TokenKind::Procedure => Step::Goes(Place::AtProcedure),
        _ => begin(stack, kind),
    }
}

/// Nothing has come.
fn at_start(stack: &mut Stack, kind: TokenKind) -> Step
    requires { length stack.old < 2240 }
    ensures { shown_step result stack.new ≡ machine_start stack.old kind }
{
    match kind {
        TokenKind::Separating(separator) => Step::Ends(What::Nothing, separator),
        TokenKind::End => Step::Goes(Place::AtEnd),
        TokenKind::In => Step::Goes(Place::AtFile),
        TokenKind::Mode(_) => Step::Goes(Place::AtMode),
        _ => at_body(stack, kind),
    }
}

/// A mode has come.
fn at_mode(stack: &mut Stack, kind: TokenKind) -> Step
    requires { length stack.old < 2240 }
    ensures { shown_step result stack.new ≡ machine_mode stack.old kind }
{
    match kind {
        TokenKind::Separating(separator) => Step::Ends(What::Form, separator),
        _ => at_body(stack, kind),
    }
}

/// The kind of a procedure has come.
fn at_kind(kind: TokenKind) -> Step
    ensures { (fs : List Frame) → shown_step result fs ≡ machine_kind fs kind }
{
    match kind {
        TokenKind::Procedure => Step::Goes(Place::AtProcedure),
        _ => Step::Refused,
    }
}

/// `end` has come.
fn at_end(kind: TokenKind) -> Step
    ensures { (fs : List Frame) → shown_step result fs ≡ machine_end kind }
{
    match kind {
        TokenKind::Separating(separator) => Step::Ends(What::End, separator),
        _ => Step::Refused,
    }
}

/// `in` has come, maybe with files and a comma.
fn at_file(kind: TokenKind) -> Step
    ensures { (fs : List Frame) → shown_step result fs ≡ machine_file fs kind }
{
    match kind {
        TokenKind::String => Step::Goes(Place::AtFiles),
        _ => Step::Refused,
    }
}

/// The name of a file has come.
fn at_files(kind: TokenKind) -> Step
    ensures { (fs : List Frame) → shown_step result fs ≡ machine_files fs kind }
{
    match kind {
        TokenKind::Comma => Step::Goes(Place::AtFile),
        TokenKind::Separating(separator) => Step::Ends(What::Files, separator),
        _ => Step::Refused,
    }
}

/// A token before an expr has begun.
fn step_before(stack: &mut Stack, place: Place, kind: TokenKind) -> Step
    requires room { length stack.old < 2240 }
    requires before { is_before_expr place ≡ true }
    ensures { shown_step result stack.new ≡ machine_step place stack.old kind }
{
    match place {
        Place::AtMode => at_mode(stack, kind),
        Place::AtKind => at_kind(kind),
        Place::AtProcedure => at_identifier(Place::AtListing(Listing::Begun), kind),
        Place::AtListing(listing) => at_listing(listing, kind),
        Place::AtEnd => at_end(kind),
        Place::AtFile => at_file(kind),
        Place::AtFiles => at_files(kind),
        _ => at_start(stack, kind),
    }
}

/// A token behind a word of a phrase or a name.
fn step_word(stack: &mut Stack, place: Place, kind: TokenKind) -> Step
    requires room { length stack.old < 2240 }
    requires at_word { is_at_word place ≡ true }
    ensures { shown_step result stack.new ≡ machine_step place stack.old kind }
{
    match place {
        Place::AtScalar => at_identifier(Place::AtNames, kind),
        Place::AtNames => at_names(kind),
        Place::AtParameters(listing) => at_parameters(stack, listing, kind),
        Place::AtFor => at_for(kind),
        Place::AtIndex => at_index(stack, kind),
        Place::AtEach => at_identifier(Place::AtIn, kind),
        Place::AtIn => at_in(stack, kind),
        Place::AtGo => at_go(kind),
        _ => at_identifier(Place::Has(false), kind),
    }
}

/// Whether no expr has begun.
fn is_before_expr(place: Place) -> bool
    ensures { result ≡ is_before_expr place }
{
    match place {
        Place::Start
        | Place::AtMode
        | Place::AtKind
        | Place::AtProcedure
        | Place::AtListing(_)
        | Place::AtEnd
        | Place::AtFile
        | Place::AtFiles => true,
        _ => false,
    }
}

/// A token.
fn step(stack: &mut Stack, place: Place, kind: TokenKind) -> Step
    requires { length stack.old + 2 < 2240 }
    ensures { shown_step result stack.new ≡ machine_step place stack.old kind }
{
    if is_before_expr(place) {
        return step_before(stack, place, kind);
    }
    match place {
        Place::Want => begin(stack, kind),
        Place::Named => after_name(stack, kind),
        Place::Has(lambda) => end_operand(stack, lambda, kind),
        Place::Opened => after_open(stack, kind),
        Place::Shut => after_shut(stack, kind),
        Place::Returned => after_return(stack, kind),
        Place::AtPiece(group) => at_piece(stack, group, kind),
        Place::AtName(group) => at_name(stack, group, kind),
        Place::AtDeclarations => at_declarations(stack, kind),
        _ => step_word(stack, place, kind),
    }
}

/// How many are unfinished at the last token.
fn depth(stack: &mut Stack, place: Place) -> u16
    ensures depth { result ≡ machine_depth place stack.old }
    ensures same { stack.new ≡ stack.old }
{
    if let Place::Want = place {
        return nested_outside(stack);
    }
    if is_before_expr(place) {
        0
    } else {
        stack.nested()
    }
}

/// Whether the token before this one is within the bound, where it may have been a label.
fn admits(stack: &Stack, place: Place, kind: TokenKind) -> bool
    ensures { result ≡ machine_admits place stack.now kind }
{
    if let Place::AtName(_) = place {
        if let TokenKind::Colon = kind {
            return true;
        }
        return stack.nested() < MOST_NESTED;
    }
    true
}

/// A token, within the bound of nesting.
pub(crate) fn step_within(stack: &mut Stack, place: Place, kind: TokenKind) -> Step
    requires { length stack.old + 2 < 2240 }
    ensures { shown_step result stack.new ≡ machine_within place stack.old kind }
{
    if !admits(stack, place, kind) {
        return Step::Refused;
    }
    match step(stack, place, kind) {
        Step::Goes(next) => within(stack, next),
        other => other,
    }
}

/// A place, if no more is unfinished there than may be.
fn within(stack: &mut Stack, place: Place) -> Step
    ensures { shown_step result stack.new ≡ machine_bounded (machine.Moves place stack.old) }
{
    if depth(stack, place) <= MOST_NESTED {
        Step::Goes(place)
    } else {
        Step::Refused
    }
}
