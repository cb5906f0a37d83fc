//! Why a question has no answer.

/// Why a location or a call string has no answer in a program.
#[derive(Clone, Copy, Debug, PartialEq, Eq, Hash)]
pub enum QueryRefusal {
    /// The call string has more than two calls.
    LongString,
    /// The program has no procedure of this name.
    NoProcedure,
    /// The program has no statement of this number.
    NoStatement,
    /// The statement is no loop, and its head is asked.
    WrongStatement,
    /// No chain to the procedure ends in the call string.
    NoChain,
}
