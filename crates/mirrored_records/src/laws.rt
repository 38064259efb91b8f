//! What holds of two copies, over the definitions alone.
ghost use Rattle.mirrored_records.specs.Prefixes.{AgreeingDifferNowhere, CopiesAgree};

/// Whatever a crash leaves of two copies, one extends the other, and both extend what was answered.
pub fn copies_agree()
    ensures agree { CopiesAgree }
    ensures nowhere { AgreeingDifferNowhere }
{}
