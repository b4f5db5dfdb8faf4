//! The top call: a command line, a store of files and two sinks to a status.
//!
//! [`run`] reads the words as a command, answers it over the files of the store, and writes the result table to one sink
//! and the notes, and a line for the [`Cause`] of every [`Status`] but `Done`, to the other.
//! Proved: status 0 means that exactly the text of an allowed table was written, and exactly the notes that belong to it
//! (`done`). Every other status has a cause that holds, and its message was written, behind the notes where it is a failed
//! write and else alone, or a prefix of these lines where the count of faults of their sink rose (`cause`); the cause of out
//! of memory says nothing of the words and the files. Where the words are refused, that is the status, unless it is out of
//! memory (`words_where`), and the store is left as it was (`words_first`). Where known contents are refused, one of them or
//! the tables that they are together, that is the status, unless it is out of memory or a read failed (`refused_where`). Where
//! the content of each file is known and accepted, also together, and neither a read nor a write failed, all is done, unless
//! it is out of memory (`completes`). The output is left alone but for a table, or the prefix of one before a failed write
//! (`untouched`, `cause`).
//! Not proved: time, that memory suffices, that the header line is written as one piece, that each file is judged
//! before the next is read, and that no memory is asked for once the rows stand.
#![tactic(auto)]

mod cause;
mod message;
mod note;
mod running;
mod status;

pub use cause::Cause;
pub use running::run;
pub use status::Status;
