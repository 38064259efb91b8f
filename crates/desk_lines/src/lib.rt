//! The lines of sessions and scripts, and the lines that answer them.
//!
//! `read_line` reads a session line, `read_step`, `read_sites` and `read_limit` the lines of a script, each without
//! its line break. `reply_line` and `write_answer` write the line that answers, with it. `request_line` writes the
//! session line that asks a request.
//!
//! Guaranteed: each line that can be read has one text, and each such text is of one line
//! (`laws::lines_are_read_exactly`); after a failed write a prefix of the reply is written.
//!
//! The texts of replies are in `texts.rt`; their words are those of `request_ledger`.
//!
//! A new line of a session is a variant of `Line`, with its words in `specs/Grammar.antt` and a function of
//! `session_lines.rt`; a new reply is a text of `texts.rt` with its row in `specs/Replies.antt`; a new command of a
//! script is a variant of `Command` (`script_commands.rt`), with its words in `specs/Grammar.antt` and its case in
//! `specs/Commands.antt`.
//!
//! Lemmas for callers: `ReadingLaws`.
#![tactic(auto)]

mod answered;
pub mod laws;
mod line;
mod request_lines;
mod requests;
mod script;
mod script_answer;
mod script_commands;
mod script_lines;
mod session_lines;
mod texts;

/// The most lines of a session or of a script.
pub const MOST_LINES: u32 = 1_000_000;

pub use answered::{Answered, reply_line};
pub use line::{BadLine, Line};
pub use request_lines::{request_line, request_text};
pub use script::ScriptLine;
pub use script_answer::{ScriptAnswer, write_answer};
pub use script_lines::{read_limit, read_sites, read_step};
pub use session_lines::read_line;
pub use texts::{grow_fault_text, reply_text, take_fault_text, wire_fault_text};
