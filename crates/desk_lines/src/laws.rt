//! What holds of each line, over the definitions alone.

ghost use Rattle.desk_lines.specs.Laws.{SessionLinesAreRead, OnlySessionLinesAreRead, LinesAreRead, OnlyLinesAreRead, SitesAreRead, OnlySitesAreRead, LimitsAreRead, OnlyLimitsAreRead};

/// Each line of a session or of a script is read from its text, and from no other.
pub fn lines_are_read_exactly()
    ensures session_lines { SessionLinesAreRead }
    ensures only_session_lines { OnlySessionLinesAreRead }
    ensures lines { LinesAreRead }
    ensures only_lines { OnlyLinesAreRead }
    ensures sites { SitesAreRead }
    ensures only_sites { OnlySitesAreRead }
    ensures limits { LimitsAreRead }
    ensures only_limits { OnlyLimitsAreRead }
{}
