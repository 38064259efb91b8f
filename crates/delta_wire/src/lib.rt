//! The text of messages and of deltas.
//!
//! A message is a header line, `delta S T U` or `ack S T U` for a message from site S to site T up to length U, then
//! for a delta its items, one a line, then the line `end`. Items are `name E`, then `gave E S T V`, `used E S V` and
//! `back E S V`, sorted. Each line ends with a line feed, and words are one space apart.
//!
//! A caller reads with `read_message` and `read_delta`, and writes with `write_message` and `delta_text`.
//!
//! Guaranteed: a text is read exactly where it is the text of a message, and as that message; a text that is none
//! gives its first fault. `laws` say that no two messages share a text, and that none is a prefix of another's.
//!
//! A new item is a variant of `ItemKind`, with its words in `specs/Grammar.antt` and `Reading.antt`, its place in the
//! order in `specs/Items.antt`, its reading in `items.rt` and its writing in `text.rt`.
//!
//! Lemmas for callers: `FieldLaws`, `Names`, `Texts`.
#![tactic(auto)]

mod fault;
mod fields;
mod header;
mod items;
mod items_end;
pub mod laws;
mod lines;
mod reading;
mod text;
mod writing;

/// The most bytes of a text that comes from outside, and of the text of a delta that records keep.
pub const MOST_BYTES: usize = 4_294_967_296;

pub use fault::WireFault;
pub use fields::{event_at, natural_at, site_at};
pub use reading::{read_delta, read_message};
pub use writing::{delta_text, write_message};
