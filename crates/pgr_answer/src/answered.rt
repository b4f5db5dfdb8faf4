use pgr_outside::Listed;
use pgr_rows::Rows;
use pgr_walks::NamedLink;

/// The answer to a command.
#[derive(Debug, Drop)]
pub struct Answered {
    /// The rows of the result table.
    pub rows: Rows,
    /// What is said beside the rows: by `pgr_aStar`, for each start whose estimate isn't consistent, by rising start.
    pub notes: Listed<Note>,
}

/// A start whose estimate isn't consistent, and the first link that breaks it.
#[derive(Clone, Copy, Debug, PartialEq, Eq)]
pub struct Note {
    /// The start.
    pub start: i64,
    /// The link.
    pub link: NamedLink,
}
