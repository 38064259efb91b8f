//! What holds after a crash, over the definitions alone.
ghost use Rattle.sql_records.specs.Restarting.{CrashesAreSurvived};

use sqlite::Alter;

/// An open of any database that a crash may leave finds one that was left: the site's numbers, and the list that was
/// stored.
pub fn crashes_are_survived<S: Alter>()
    ensures { CrashesAreSurvived S.Store }
{}
