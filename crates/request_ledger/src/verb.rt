//! What a request asks, and the word for it.
ghost use Rattle.std.specs.Prelude.{◌≡◌, ◌≤◌, length, Some, IfSome};
ghost use Rattle.std.specs.List.{find};
ghost use Rattle.std.specs.Str.{bytes_eq};
ghost use Rattle.request_ledger.specs.declared.verb.Verb.{Verb};
ghost use Rattle.request_ledger.specs.Words.{verb_word, verb_of};

/// What a request asks.
#[derive(Clone, Copy, PartialEq, Eq, Debug)]
pub enum Verb {
    /// To make the name of an event known.
    Announce,
    /// To add seats to what the site may sell.
    Release,
    /// To sell seats.
    Sell,
    /// To give back a part of a sale, or what is left of it.
    Refund,
    /// To hand rights to another site.
    Cede,
}

const VERBS: [Verb; 5] = [
    Verb::Announce,
    Verb::Release,
    Verb::Sell,
    Verb::Refund,
    Verb::Cede,
];

impl Verb {
    /// The first word of a session's line that asks it, of at most 8 bytes.
    pub fn word(self) -> &'static [u8]
        ensures word { result.now ≡ verb_word self }
        ensures short { length result.now ≤ 8 }
    {
        match self {
            Verb::Announce => b"announce",
            Verb::Release => b"release",
            Verb::Sell => b"sell",
            Verb::Refund => b"refund",
            Verb::Cede => b"cede",
        }
    }

    /// The verb that has this word; `None` where none has.
    #[tactic(auto, unfolding(crate::specs::Words::verb_of))]
    pub fn read(word: &[u8]) -> Option<Verb>
        ensures found { IfSome result (λ v. word.now ≡ verb_word v) }
        ensures only { (v : Verb) → word.now ≡ verb_word v → result ≡ Some v }
        ensures exact { result ≡ verb_of word.now }
    {
        first_with(&VERBS, word)
    }
}

// The first of these verbs that has this word.
fn first_with(verbs: &[Verb], word: &[u8]) -> Option<Verb>
    ensures { result ≡ find (λ v. bytes_eq word.now (verb_word v)) verbs.now }
{
    verbs.iter().find(|verb| word == verb.word()).copied()
}
