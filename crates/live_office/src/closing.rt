//! Whether an office closes, and what closes it.

ghost use Rattle.std.specs.Prelude.{◌≡◌, Ok, Some};
ghost use Rattle.live_office.specs.declared.handler.Last.TheVariants.{Close};
ghost use Rattle.live_office.specs.Admissible.{IsShut, admissible};

use crate::serving::Served;
use history_keeper::Keeper;
use site_desk::{Desk, Opens};
use std::io::{Read, Write};
use std::sync::atomic::{AtomicBool, Ordering};
use std::thread;
use std::thread::SpawnError;
use std::time::{Clock, Duration};

// How often it is looked whether the file was looked at, and how long is waited in between, in milliseconds: two seconds.
const LOOKS: u64 = 200;

const PAUSE: u64 = 10;

/// Whether an office closes. Once it does, it does for good: no caller is let in any more, and a session ends once the
/// lines that were read are answered, or a second was waited for who does not read the answers. Threads share it.
///
/// Who watches the file of an office says here if it is lost, and that a last look was made once the office closes.
#[derive(Drop)]
pub struct Closing {
    is_watched: bool,
    is_closing: AtomicBool,
    is_lost: AtomicBool,
    was_looked: AtomicBool,
}

impl Closing {
    /// An office that does not close yet, and whose file nobody watches.
    pub fn new() -> Closing {
        Closing {
            is_watched: false,
            is_closing: AtomicBool::new(false),
            is_lost: AtomicBool::new(false),
            was_looked: AtomicBool::new(false),
        }
    }

    /// The same, with a file that is watched.
    pub fn watched() -> Closing {
        Closing {
            is_watched: true,
            is_closing: AtomicBool::new(false),
            is_lost: AtomicBool::new(false),
            was_looked: AtomicBool::new(false),
        }
    }

    fn close(&self) {
        self.is_closing.store(true, Ordering::SeqCst);
    }

    // The office closes, as a caller asked whose last line was `close`.
    pub(crate) fn asked<R: Read + Drop, W: Write + Drop, K: Keeper, L: Opens>(
        &self,
        _served: &Served<'_, R, W, K, L>,
    )
        requires { _served.now.ended ≡ Ok (Some Close) }
    {
        self.close();
    }

    // The office closes, since the book at its desk closed when its store failed.
    pub(crate) fn failed<K: Keeper, L: Opens>(&self, _desk: &Desk<K, L>)
        requires { ∥ IsShut (admissible L.office L.began K.Keeper) ∥₁ }
    {
        self.close();
    }

    // The office closes, since a thread of it could not be started.
    pub(crate) fn not_staffed<F: Drop>(&self, _refused: SpawnError<F>) {
        self.close();
    }

    /// The office closes, since its file is not the one that it holds.
    pub fn lost(&self) {
        self.is_lost.store(true, Ordering::SeqCst);
        self.close();
    }

    /// The office has ended, so that nobody needs to watch its file any more.
    pub fn ended(&self) {
        self.close();
    }

    /// The last look at the file was made, once the office closes.
    pub fn looked(&self) {
        self.was_looked.store(true, Ordering::SeqCst);
    }

    // Waits for the last look at a file that is watched, for two seconds at most.
    pub(crate) fn await_look<C: Clock>(&self, clock: &C) {
        for _ in 0..LOOKS {
            if !self.is_watched || self.was_looked.load(Ordering::SeqCst) {
                return;
            }
            thread::sleep(clock, Duration::from_millis(PAUSE));
        }
    }

    /// Whether the office closes.
    pub fn is_closing(&self) -> bool {
        self.is_closing.load(Ordering::SeqCst)
    }

    /// Whether the file of the office is lost.
    pub fn is_lost(&self) -> bool {
        self.is_lost.load(Ordering::SeqCst)
    }
}
