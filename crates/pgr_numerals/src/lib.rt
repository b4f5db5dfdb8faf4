//! Numbers as text writes them: digits, digits with a hyphen, and lists of these joined by commas, each a definition on bytes with its one reader.
//!
//! [`read_digits`] reads digits up to a limit and [`read_id`] those of an id, [`read_positive`] of one that isn't 0,
//! [`read_i64`] an optional hyphen and digits, [`read_whole`] also a full stop and zeros behind them, where
//! [`read_whole_or_empty`] takes no bytes as -1 and [`read_whole_within`] keeps to a limit; [`read_fraction`] reads a
//! number between 0 and 1, decimal or with a slash; [`read_i64_list`] reads a list of numbers joined by commas, and
//! [`read_braced_list`] one between braces. Only a list takes memory.
//! Proved: each answers exactly what its definition says of all bytes, of any length, or that memory was wanting. Not proved: time.
#![tactic(auto)]

mod fraction;
mod numeral;
mod numeral_list;
mod whole;

pub use fraction::{Fraction, read_fraction};
pub use numeral::{read_digits, read_i64, read_id, read_positive};
pub use numeral_list::{read_braced_list, read_i64_list};
pub use whole::{read_whole, read_whole_or_empty, read_whole_within};
