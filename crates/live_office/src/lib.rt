//! An office that stays open: callers come and go while it sells.
//!
//! `open_office` serves callers at two doors, each in a thread, until one of them says `close` or the store fails. At a
//! `TcpDoor` a caller has the lines of a session, and `site`. At a `UnixDoor` a caller has these and the lines of the
//! office: `export`, `import`, `find`, `list`, `events`, `shares`, `status`, `close` (`OfficeLine`). A new line is a
//! variant there, with a function of `office_line.rt` and a row of `specs/Grammar.antt`, `Lines.antt` and `Handling.antt`;
//! a new answer is a variant of `OfficeAnswer`. Which lines an access has is in `specs/CallerLines.antt`.
//!
//! Guaranteed: what a served caller is sent is exactly the texts of the answers to the lines that were read, in order,
//! up to a failed write (`Served`). At the port a line that cannot be read is the last, if none before it could be
//! (`CallerSeat`). A line of a session is answered as in any session, each answer is that of an
//! admissible book, and the book that is returned extends the one that was passed. Callers who wait at the same moment
//! are asked for by one of them (`Together`); each is given its own receipt. Requests that a caller sends at once are asked
//! before their lines are answered, and each line finds its own receipt. Of a session only the place of its last
//! reply is kept. A caller that came in can only be served (`Call`), and a line that was cut off is not asked (`WholeLines`).
//! `Closing` closes for a caller who was served and said `close`, for a desk at which a closed book may stand, where
//! this crate could not start a thread, or where the program says that the file is lost.
//!
//! Not proved: that callers are served and in which order, that a line does nothing else to the book than its answer
//! tells, the count of callers that `status` tells, the count of places and who gives one up, that the word of a last line
//! goes out, who may use the socket, and that `close` ends the threads.
#![tactic(auto)]

mod ahead;
mod caller;
mod caller_seat;
mod callers;
mod closing;
mod desk_seat;
mod door;
mod gauge;
mod handler;
mod importing;
mod office;
mod office_answer;
mod office_handler;
mod office_line;
mod places;
mod record_lines;
mod serving;
mod shared;
mod socket_file;
mod sockets;
mod sparing;
mod talking;
mod together;
mod workers;

pub use caller::{Answers, Caller, Connection, WholeLines};
pub use caller_seat::CallerSeat;
pub use callers::Callers;
pub use closing::Closing;
pub use desk_seat::DeskSeat;
pub use door::{Access, Door};
pub use gauge::Gauge;
pub use handler::{Handler, Last};
pub use importing::{ImportFault, import_at};
pub use office::{OfficeFault, open_office};
pub use office_answer::{Crowd, OfficeAnswer, write_answer};
pub use office_handler::OfficeHandler;
pub use office_line::{OfficeLine, read_office_line};
pub use places::Places;
pub use record_lines::{event_line, found_line, listed_line, share_line, site_status_text};
pub use serving::{Call, Served};
pub use shared::Shared;
pub use socket_file::{SocketFault, check_socket, remove_socket};
pub use sockets::{TcpDoor, UnixDoor};
pub use sparing::{Spared, Sparing};
pub use talking::office_talk;
pub use together::Together;
pub use workers::{CLERKS, OPERATORS};
