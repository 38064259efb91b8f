//! Two keepers as one.
ghost use Rattle.std.specs.Prelude.{◌≡◌, Bool};
ghost use Rattle.mirrored_records.specs.Mirrored.{AreOpen};

use crate::both::{append_all_both, append_both};
use book_core::Entry;
use history_keeper::{KeepFault, Keeper};
use std::marker::{Model, PhantomData};

/// Which of two keepers survives. No code asks it: what is proved for any answer holds of either.
pub trait Survivor {
    ghost is_first: { Bool };
}

/// Two keepers of one history. Unless it is shut, both are open.
#[derive(Drop)]
pub struct Mirror<A: Keeper, B: Keeper, W: Survivor> {
    first: A,
    second: B,
    failures: u64,
    survivor: PhantomData<W>,
}

impl<A: Keeper, B: Keeper, W: Survivor> Model for Mirror<A, B, W> {
    ghost use Rattle.std.specs.Prelude.{◌≡◌};
    ghost use Rattle.mirrored_records.specs.Mirrored.{AreOpen, MirrorView, coded_mirror};

    ghost Value = { MirrorView A B };

    ghost coded = { coded_mirror A.code B.code };

    ghost view = { λ m. record { first = m.first; second = m.second; failures = m.failures } };

    ghost invariant = { λ m. m.failures ≡ 0 → AreOpen A.Keeper B.Keeper m.first m.second };
}

impl<A: Keeper, B: Keeper, W: Survivor> Mirror<A, B, W> {
    /// Two keepers that have not failed.
    pub fn of(first: A, second: B) -> Mirror<A, B, W>
        requires { (A.failed first ≡ 0) × (B.failed second ≡ 0) }
        ensures { result ≡ record { first = first; second = second; failures = 0 } }
    {
        // What each says of a crash.
        let _first = first.failures();
        let _second = second.failures();
        Mirror {
            first,
            second,
            failures: 0,
            survivor: PhantomData,
        }
    }

    /// The two keepers. After an error only one of them may have failed: both are to be opened again.
    pub fn into_parts(self) -> (A, B)
        ensures { result ≡ (self.first, self.second) }
    {
        let Mirror { first, second, .. } = self;
        (first, second)
    }
}

/// As whichever of the two survives shows itself.
impl<A: Keeper, B: Keeper, W: Survivor> Keeper for Mirror<A, B, W> {
    ghost use Rattle.std.specs.Prelude.{◌≡◌};
    ghost use Rattle.mirrored_records.specs.Mirrored.{shown, surviving};
    ghost use Rattle.mirrored_records.specs.Survives.{survives};

    ghost kept = { (surviving W.is_first A.Keeper B.Keeper).kept };

    ghost may_leave = { (surviving W.is_first A.Keeper B.Keeper).may_leave };

    ghost is_of = { (surviving W.is_first A.Keeper B.Keeper).is_of };

    ghost failed = { λ m. m.failures };

    ghost is_trusted = { (surviving W.is_first A.Keeper B.Keeper).is_trusted };

    ghost survives = { survives W.is_first (shown A.failed A.is_trusted A.kept A.may_leave A.is_of)
        (shown B.failed B.is_trusted B.kept B.may_leave B.is_of) A.survives B.survives };

    fn append(&mut self, entry: &Entry) -> Result<(), KeepFault> {
        if self.failures > 0 {
            return Err(KeepFault::Shut);
        }
        match append_both(&mut self.first, &mut self.second, entry) {
            Ok(()) => Ok(()),
            Err(fault) => {
                self.failures = 1;
                Err(fault)
            }
        }
    }

    fn append_all(&mut self, entries: &[Entry]) -> Result<(), KeepFault> {
        if self.failures > 0 {
            return Err(KeepFault::Shut);
        }
        match append_all_both(&mut self.first, &mut self.second, entries) {
            Ok(()) => Ok(()),
            Err(fault) => {
                self.failures = 1;
                Err(fault)
            }
        }
    }

    fn failures(&self) -> u64 {
        self.failures
    }
}
