//! What has begun in a statement and is not whole yet.

/// `<< .. >>`, or `begin .. end`.
#[derive(Clone, Copy)]
pub(crate) enum Group {
    Block,
    Prog,
}

/// What waits for an operand, by what ends it.
#[derive(Clone, Copy, Default)]
pub(crate) enum Frame {
    /// An operator or a sign before an operand of this level; it ends with that, and stands no deeper.
    Side(u8),
    /// What ends with its operand of this level.
    Tail(u8),
    /// A lambda, which ends with its body.
    Lambda,
    /// `(`, before `)`.
    #[default]
    Enclosed,
    /// Before `then`.
    Condition,
    /// Behind `then`: it ends with its operand if no `else` follows.
    Consequent,
    /// Before `do`.
    Doing,
    /// Before `until`.
    Repeated,
    /// Before `:`.
    From,
    /// Before `do`, `collect` or `join`.
    Each,
    /// Before `,` or `)`.
    Arguments,
    /// Before `;`, `$` or the end of the group.
    Pieces(Group),
}
