//! What holds over every run of sites' books.
ghost use Rattle.site_runs.specs.Copies.{CallsAreOfCopies, CopiesNeverOversell, LossIsARestart};
ghost use Rattle.site_runs.specs.Premises.{ForgedDeltasOversell, ForgedMessagesOversell, SecondHistoriesOversell, TwoCopiesOversell};
ghost use Rattle.site_runs.specs.Runs.{BooksNeverOversold};
ghost use Rattle.site_runs.specs.Shares.{OwnShareIsLeft, SharesAddUp};
ghost use Rattle.site_runs.specs.Steps.{BooksAgreeOnceAcknowledged, RunsAreSteps, RunsKeepPromises};

use history_keeper::Keeper;

/// Each run of sites' books is a list of steps of a world that shows the same.
pub fn runs_are_steps<K: Keeper>()
    ensures { RunsAreSteps K.Keeper }
{}

/// So each promise of a world of 64 sites holds of one that shows the sites; those that are not there have no history.
pub fn runs_keep_promises<K: Keeper>()
    ensures { RunsKeepPromises K.Keeper }
{}

/// The tickets outstanding by all books never exceed the seats that they released, and no more is given back than was sold:
/// at no moment of any run of up to 64 sites, with messages lost, repeated and reordered, crashes, restarts and growth.
pub fn books_never_oversold<K: Keeper>()
    ensures { BooksNeverOversold K.Keeper }
{}

/// Two sites of a run that each count all of the other's history as acknowledged know the same.
pub fn books_agree_once_acknowledged<K: Keeper>()
    ensures { BooksAgreeOnceAcknowledged K.Keeper }
{}

/// Nor do sites that keep two copies of their history, if after any step one of a site's two is lost and it goes on from what
/// the other may leave: that is a restart of the run, of what the site had.
pub fn sites_with_two_copies_never_oversell<K: Keeper>()
    ensures calls { CallsAreOfCopies K.Keeper }
    ensures loss { LossIsARestart K.Keeper }
    ensures bounded { CopiesNeverOversell K.Keeper }
{}

/// That messages are genuine is needed: a run with one forged message oversells.
pub fn forged_messages_oversell()
    ensures { ForgedMessagesOversell }
{}

/// That a site has one copy is needed: in a run that goes on from an older copy of a site the same seats are sold twice.
pub fn two_copies_oversell()
    ensures { TwoCopiesOversell }
{}

/// That a delta was its sender's is needed of histories too: legal ones oversell without it.
pub fn forged_deltas_oversell()
    ensures { ForgedDeltasOversell }
{}

/// That a site has one history is needed: if a delta may be of another legal one, the same seats are sold twice.
pub fn second_histories_oversell()
    ensures { SecondHistoriesOversell }
{}

/// What a site may sell by its view, of each site, adds up to the open seats, where the view is possible; where it is not,
/// some row has none. The row of the site itself is what it has left.
pub fn shares_add_up()
    ensures seats { SharesAddUp }
    ensures own { OwnShareIsLeft }
{}
