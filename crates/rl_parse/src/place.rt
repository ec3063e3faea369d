//! How far a statement is.

use crate::frame::Group;
use rl_lex::Separator;

/// How far a parameter list is: nothing has come; `(`; a name; a name and `,`; all but its `;`.
#[derive(Clone, Copy)]
pub(crate) enum Listing {
    Begun,
    Opening,
    Naming,
    Parted,
    Over,
}

/// How far a statement is, beside what has begun.
#[derive(Clone, Copy)]
pub(crate) enum Place {
    /// Nothing has come; a mode; the kind of a procedure; `procedure`; some of its parameter list.
    Start,
    AtMode,
    AtKind,
    AtProcedure,
    AtListing(Listing),
    /// `end`; `in`, maybe files and a comma; a file.
    AtEnd,
    AtFile,
    AtFiles,
    /// An operand must come; a name has come; an operand has come, maybe a lambda.
    Want,
    Named,
    Has(bool),
    /// What is called and `(`; a lambda in parentheses; `return`.
    Opened,
    Shut,
    Returned,
    /// A piece may begin; a name has come that may be a label.
    AtPiece(Group),
    AtName(Group),
    /// `begin` and declarations; `scalar`, maybe names and a comma; a name.
    AtDeclarations,
    AtScalar,
    AtNames,
    AtParameters(Listing),
    AtFor,
    AtIndex,
    AtEach,
    AtIn,
    AtGo,
    AtGoal,
}

/// What a statement is: nothing; the end of its file; files whose statements are run; or a form.
#[derive(Clone, Copy)]
pub enum What {
    Nothing,
    End,
    Files,
    Form,
}

/// Where a token leads: to a place; to the end of the statement, with this separator; or it has no place.
#[derive(Clone, Copy)]
pub(crate) enum Step {
    Goes(Place),
    Ends(What, Separator),
    Refused,
}
