//! The commands of the program `boxoffice`, over any reader and writers.
//!
//! `read_words` reads the arguments as an `Order`. Each command is one function over a connection to any store, a
//! reader and writers, and returns its `Status`: `init_store`, `migrate_store`, `grow_store`, `ask_store`,
//! `export_store`, `import_store`, `find_store`, `list_store`, `events_store`, `shares_store`, `status_store`,
//! `audit_stores`, `serve_stores`; `world_script` runs a script. Where an office has the file open, `ask_office`,
//! `export_office`, `import_office`, `find_office`, `list_office`, `events_office`, `shares_office` and `status_office`
//! go to it, over a reader and a writer.
//!
//! A command over records opens them, makes one call and returns an `Outcome`, which `print_outcome` prints. A new one is
//! such a function, a relation of its call in `specs/Commands.antt` and, where it prints another text, a variant of
//! `Outcome` with its text in `specs/Outcomes.antt`; its arguments are an `Order`.
//!
//! Guaranteed: what is printed is defined by the input and by the entries that the store held (`specs/Script.antt`,
//! `specs/Audited.antt` and others), and after a fault at most a prefix of it; a command with status 1 changes no
//! entry, and of commands over one site's records the contracts say what a crash leaves. Of a command at an office: which
//! bytes it asks, and that it prints what the office sent, or why it asks nothing (`specs/Visits.antt`,
//! `specs/Asking.antt`).
//! `laws::totals_are_not_oversold` says that no script prints totals with more outstanding than released. What a
//! contract says of bytes read or written it says where it knows them, as of a slice and a `Vec`.
#![tactic(auto)]

mod answering;
mod ask;
mod asking;
mod audit;
mod bringing;
mod command_fault;
mod copies;
mod ending;
mod events;
mod export;
mod fault;
mod find;
mod grammar;
mod grow;
mod import;
mod init;
pub mod laws;
mod list;
mod migrate;
mod office;
mod opening;
mod orders;
mod outcome;
mod serve;
mod shares;
mod site_status;
mod status;
mod told;
mod totals;
mod version;
mod visiting;
mod visits;
mod world;

pub use ask::ask_store;
pub use asking::ask_office;
pub use audit::{audit_stores, refuse_parts};
pub use bringing::import_office;
pub use copies::{
    alone_store, ask_site, grow_site, import_site, mark_store, office_site, open_copies,
    refuse_copy, refuse_one_of_two, refuse_same_file, refuse_unpaired, tell_paired,
};
pub use events::events_store;
pub use export::export_store;
pub use fault::ScriptFault;
pub use find::find_store;
pub use grow::grow_store;
pub use import::import_store;
pub use init::{init_store, refuse_site};
pub use list::list_store;
pub use migrate::migrate_store;
pub use office::{CloseFault, office_store, tell_close_fault, tell_socket_fault};
pub use opening::open_store;
pub use orders::{FileNames, Order, WordsFault, read_words};
pub use serve::{serve_stores, tell_listen_fault};
pub use shares::shares_store;
pub use site_status::status_store;
pub use status::Status;
pub use version::tell_version;
pub use visits::{
    events_office, export_office, find_office, list_office, shares_office, status_office, tell_open,
};
pub use world::{run_script, world_script};
