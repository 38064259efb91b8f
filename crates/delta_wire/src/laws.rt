//! The laws of texts.
ghost use Rattle.delta_wire.specs.TextLaws.{NoTextIsAPrefix, MessagesHaveTheirOwnTexts, DeltasHaveTheirOwnTexts};

/// No message's text is a prefix of another's.
pub fn no_text_is_a_prefix()
    ensures { NoTextIsAPrefix }
{}

/// Different messages, and different deltas, have different texts.
pub fn texts_differ()
    ensures messages { MessagesHaveTheirOwnTexts }
    ensures deltas { DeltasHaveTheirOwnTexts }
{}
