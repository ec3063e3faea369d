//! The kinds of tokens.

/// The operators that group to the left, and are never identifiers.
#[derive(Clone, Copy)]
pub enum Operator {
    Or,
    And,
    Equal,
    Unequal,
    AtLeast,
    Greater,
    AtMost,
    Less,
    Plus,
    Minus,
    Times,
    Divide,
}

/// The words that are operators, or identifiers where an operand must stand.
#[derive(Clone, Copy)]
pub enum Worded {
    Eq,
    Member,
    Memq,
}

/// `;` and `$`.
#[derive(Clone, Copy)]
pub enum Separator {
    Semicolon,
    Dollar,
}

/// What `for each` does with each element.
#[derive(Clone, Copy)]
pub enum Way {
    Do,
    Collect,
    Join,
}

/// The words of a mode.
#[derive(Clone, Copy)]
pub enum ModeWord {
    Symbolic,
    Lisp,
}

/// The words before `procedure`.
#[derive(Clone, Copy)]
pub enum KindWord {
    Expr,
    Fexpr,
    Macro,
    Smacro,
}

/// A token but for its name, its number, its bytes or its datum, which its text tells.
#[derive(Clone, Copy)]
pub enum TokenKind {
    Mode(ModeWord),
    Kind(KindWord),
    Procedure,
    /// A name that is no reserved word, or is written with `!`.
    Identifier,
    /// Without a sign.
    Integer,
    String,
    /// `'` and a spelling.
    Quoted,
    Infix(Operator),
    Word(Worded),
    /// `**`.
    Power,
    Dot,
    Not,
    /// `:=`.
    Assign,
    Open,
    Close,
    Comma,
    Colon,
    If,
    Then,
    Else,
    While,
    Repeat,
    Until,
    For,
    Each,
    Foreach,
    In,
    Does(Way),
    /// `<<`.
    OpenBlock,
    /// `>>`.
    CloseBlock,
    Separating(Separator),
    Begin,
    End,
    Scalar,
    Return,
    Go,
    To,
    Goto,
    Lambda,
}
