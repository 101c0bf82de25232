//! What is refused.
use thiserror::Error;

/// Why a word opens and ends no block.
#[derive(Clone, Copy, Debug, PartialEq, Eq, Error)]
pub enum RepeatFault {
    /// The word has another form.
    #[error("not a step and repeat")]
    BadText = 1,
    /// A step is not a whole number of u.
    #[error("a step off the grid")]
    OffGrid,
    /// A step is over 1 m.
    #[error("a step out of range")]
    OutOfRange,
}

/// Why there are no copies of a block.
#[derive(Clone, Copy, Debug, Error)]
pub enum CopyFault {
    /// The copies have more pieces than the room.
    #[error("too many pieces")]
    TooManyPieces = 1,
    /// The copies' areas have more edges than the room.
    #[error("too many edges")]
    TooManyEdges,
    /// An end or a corner of a copy is over 1 m from 0 in x or y.
    #[error("an end or a corner of a copy out of range")]
    OutOfRange,
    #[error("memory is wanted")]
    NoMemory,
}
