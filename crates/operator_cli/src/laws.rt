//! What holds of each script and of the program's words, over the definitions alone.

ghost use Rattle.std.specs.Prelude.{◌∷◌, [], true, false, codes, Some, None};
ghost use Rattle.operator_cli.specs.Laws.{ScriptsMakeSteps, TotalsAreThose, TotalsAreNotOversold};
ghost use Rattle.operator_cli.specs.Orders.{boxoffice, AreUnderstood, Give, SaysWorld, SaysInit, SaysMigrate, SaysGrow, SaysAsk, SaysFind, SaysList, SaysEvents, SaysShares, SaysExport, SaysImport, SaysAudit, SaysServe, SaysOpen, SaysClose, SaysStatus, SaysPair, SaysAlone, SaysBackup, SaysVersion, sparing};

/// The totals of a script are those of a world that its steps lead to, and none is oversold.
pub fn totals_are_not_oversold()
    ensures steps { ScriptsMakeSteps }
    ensures totals { TotalsAreThose }
    ensures bounded { TotalsAreNotOversold }
{}

/// Each command that makes or changes a file is given by words that the grammar takes.
pub fn commands_that_change_have_words()
    ensures init { Give (codes "init" ∷ codes "a.db" ∷ codes "1" ∷ codes "2" ∷ codes "9" ∷ [])
        (SaysInit (codes "a.db") 1 2 9) }
    ensures migrate { Give (codes "migrate" ∷ codes "a.db" ∷ []) (SaysMigrate (codes "a.db")) }
    ensures grow { Give
        (codes "grow" ∷ codes "a.db" ∷ codes "21" ∷ []) (SaysGrow (codes "a.db") 21 None) }
    ensures ask { Give (codes "ask" ∷ codes "a.db" ∷ []) (SaysAsk (codes "a.db") None) }
    ensures export { Give
        (codes "export" ∷ codes "a.db" ∷ codes "1" ∷ []) (SaysExport (codes "a.db") 1 None) }
    ensures import { Give (codes "import" ∷ codes "a.db" ∷ []) (SaysImport (codes "a.db") None) }
{}

/// So is each that reports what a file has.
pub fn commands_that_report_have_words()
    ensures find { Give
        (codes "find" ∷ codes "a.db" ∷ codes "7" ∷ []) (SaysFind (codes "a.db") 7 None) }
    ensures list { Give
        (codes "list" ∷ codes "a.db" ∷ codes "gala" ∷ [])
        (SaysList (codes "a.db") (codes "gala") None) }
    ensures events { Give (codes "events" ∷ codes "a.db" ∷ []) (SaysEvents (codes "a.db") None) }
    ensures shares { Give (codes "shares" ∷ codes "a.db" ∷ codes "gala" ∷ [])
        (SaysShares (codes "a.db") (codes "gala") None) }
    ensures audit { Give (codes "audit" ∷ codes "a.db" ∷ codes "b.db" ∷ [])
        (SaysAudit (codes "a.db" ∷ codes "b.db" ∷ []) []) }
    ensures status { Give (codes "status" ∷ codes "a.db" ∷ []) (SaysStatus (codes "a.db") None) }
    ensures version { Give (codes "version" ∷ []) SaysVersion }
{}

/// So is each that serves callers, or runs a script.
pub fn commands_that_serve_have_words()
    ensures world { Give (codes "world" ∷ []) SaysWorld }
    ensures serve { Give (codes "serve" ∷ codes "7000" ∷ codes "2" ∷ codes "9" ∷ codes
        "a.db" ∷ codes "b.db" ∷ []) (SaysServe 7000 2 9 (codes "a.db" ∷ codes "b.db" ∷ []) []) }
    ensures open { Give (codes "open" ∷ codes "7000" ∷ codes "a.db" ∷ [])
        (SaysOpen 7000 (codes "a.db") (sparing false 0) None) }
    ensures spares { Give (codes "open" ∷ codes "7000" ∷ codes "a.db" ∷ codes "--low" ∷ codes
        "--reserve" ∷ codes "500" ∷ []) (SaysOpen 7000 (codes "a.db") (sparing true 500) None) }
    ensures close { Give (codes "close" ∷ codes "a.db" ∷ []) (SaysClose (codes "a.db")) }
{}

/// So is each that makes copies.
pub fn commands_that_copy_have_words()
    ensures pair { Give (codes "pair" ∷ codes "a.db" ∷ codes "b.db" ∷ [])
        (SaysPair (codes "a.db") (codes "b.db")) }
    ensures alone { Give (codes "alone" ∷ codes "a.db" ∷ []) (SaysAlone (codes "a.db")) }
    ensures backup { Give (codes "backup" ∷ codes "a.db" ∷ codes "b.db" ∷ [])
        (SaysBackup (codes "a.db") (codes "b.db")) }
{}

/// A command that opens the records of a site takes one other copy, `audit` and `serve` one for each file, and others take
/// none.
pub fn commands_take_copies()
    ensures ask { Give (codes "ask" ∷ codes "a.db" ∷ codes "--copy" ∷ codes "b.db" ∷ [])
        (SaysAsk (codes "a.db") (Some (codes "b.db"))) }
    ensures open { Give
        (codes "open" ∷ codes "7" ∷ codes "a.db" ∷ codes "--copy" ∷ codes "b.db" ∷ [])
        (SaysOpen 7 (codes "a.db") (sparing false 0) (Some (codes "b.db"))) }
    ensures audit { Give
        (codes "audit" ∷ codes "a" ∷ codes "--copy" ∷ codes "b" ∷ codes "--copy" ∷ codes "c" ∷ [])
        (SaysAudit (codes "a" ∷ []) (codes "b" ∷ codes "c" ∷ [])) }
    ensures serve { Give (codes "serve" ∷ codes "7" ∷ codes "0" ∷ codes "0" ∷ codes "a" ∷ codes
        "--copy" ∷ codes "b" ∷ []) (SaysServe 7 0 0 (codes "a" ∷ []) (codes "b" ∷ [])) }
    ensures twice { AreUnderstood (codes "boxoffice" ∷ codes "ask" ∷ codes "a"
        ∷ codes "--copy" ∷ codes "b" ∷ codes "--copy" ∷ codes "c" ∷ []) → ⊥ }
    ensures none { AreUnderstood
        (codes "boxoffice" ∷ codes "close" ∷ codes "a" ∷ codes "--copy" ∷ codes "b" ∷ []) → ⊥ }
{}

/// A word that is missing, a word too many and a call for help are not understood.
pub fn other_words_are_not_understood()
    ensures no_file { AreUnderstood (codes "boxoffice" ∷ codes "audit" ∷ []) → ⊥ }
    ensures word_too_many { AreUnderstood (codes "boxoffice" ∷ codes "world" ∷ codes "extra" ∷ [])
        → ⊥ }
    ensures help { AreUnderstood (codes "boxoffice" ∷ codes "world" ∷ codes "--help" ∷ []) → ⊥ }
{}
