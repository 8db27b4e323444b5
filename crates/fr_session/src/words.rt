//! The words of a record.
ghost use Rattle.std.specs.Prelude.{◌≡◌};
ghost use Rattle.fr_session.specs.RecordWords.{fate_word, kind_word};

use fr_bus::outcome::SentFate;

/// Returns the word for a babble or an offer (project-defined).
pub fn kind_word(babble: bool) -> &'static str
    ensures { result.now ≡ kind_word babble }
{
    if babble { "babble" } else { "offer" }
}

/// Returns the word for the fate of a transmission (project-defined).
pub fn fate_word(fate: SentFate) -> &'static str
    ensures { result.now ≡ fate_word fate }
{
    match fate {
        SentFate::Passed => "passed",
        SentFate::Blocked => "blocked",
        SentFate::Muted => "muted",
    }
}
