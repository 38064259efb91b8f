//! Plain text, read a line at a time and a word at a time, and written as far as a writer takes it.
//!
//! A line ends with byte 10 or with the input, and has at most 200 bytes. Its words are one space apart. A number is
//! decimal, without a sign and without leading zeros.
//!
//! A caller reads lines with `next_line`, words with `Words`, numbers with `read_number` and `number_at`. It builds
//! short texts with `put`, `put_number`, `word` and `numbered`, and writes them with `write_bytes`.
//!
//! Guaranteed: reading is exact, each call returning what stands in the input or the fault that it has; after a failed
//! write a prefix of the text is written, and nothing else.
//!
//! A new kind of word is a function over `Words` with its definition in `specs/Words.antt`; a text of several words
//! is built in `text.rt`.
//!
//! Lemmas for callers: `LineLaws`, `NumberLaws`, `TextLaws`, `WordLaws`, `WriteLaws`.
#![tactic(auto)]

mod lines;
mod number;
mod text;
mod words;
mod writing;

pub use lines::{LONGEST_LINE, LineBytes, LineFault, ReadFault, has_more, next_line};
pub use number::{number_at, read_number};
pub use text::{Text, numbered, put, put_number, word};
pub use words::Words;
pub use writing::{WriteFault, write_bytes};
