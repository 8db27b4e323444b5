//! The lines of ownership.
ghost use Rattle.std.specs.Prelude.{◌≡◌, true, Some, IfSome};
ghost use Rattle.fr_slots.specs.declared.plan.Own.{Own};
ghost use Rattle.fr_text.specs.Spaces.{words_of, line_of};
ghost use Rattle.fr_lines.specs.Reading.{fitting_own, last_cycles_in, own_cycles_in, ownership_in, own_in};
ghost use Rattle.fr_lines.specs.Spelled.{IsSpelledOwn};
ghost use Rattle.fr_lines.specs.Spelling.{own_words};
ghost use Rattle.fr_lines.specs.Versions.{tells_own};

use crate::parts::{channels_of, cycles_of, flag_of, slot_of};
use crate::versions::Version;
use fr_slots::filter::CycleFilter;
use fr_slots::plan::{Own, own_fits};
use fr_text::words::Words;

/// Returns the ownership line, if a plan can have it.
fn fitting(own: Own) -> Option<Own>
    ensures { result ≡ fitting_own own }
{
    if own_fits(&own) { Some(own) } else { None }
}

/// Returns the cycles that the words spell, if no word follows them.
#[tactic(auto, unfolding(crate::specs::Reading::last_cycles_in))]
fn last_cycles_of(words: &mut Words<'_>) -> Option<CycleFilter>
    ensures { result ≡ last_cycles_in words.old }
{
    let (base, repetition) = words.two()?;
    cycles_of(base, repetition)
}

/// Returns the cycles of an ownership.
///
/// They are those that the words spell, or every cycle in a version whose line has none.
#[tactic(auto, unfolding(crate::specs::Reading::own_cycles_in))]
fn own_cycles_of(version: Version, words: &mut Words<'_>) -> Option<CycleFilter>
    ensures { result ≡ own_cycles_in version words.old }
{
    if version.has_own_cycles() {
        return last_cycles_of(words);
    }
    words.end()?;
    Some(CycleFilter::default())
}

/// Returns the ownership line that the words spell.
#[tactic(auto, unfolding(crate::specs::Reading::ownership_in))]
pub(crate) fn ownership_of(version: Version, words: &mut Words<'_>) -> Option<Own>
    ensures { result ≡ ownership_in version words.old }
{
    let (slot, channels, sync, startup) = words.next_four()?;
    let slot = slot_of(slot)?;
    let channels = channels_of(channels)?;
    let sync = flag_of(sync)?;
    let startup = flag_of(startup)?;
    let cycles = own_cycles_of(version, words)?;
    fitting(Own {
        slot,
        channels,
        cycles,
        sync,
        startup,
    })
}

/// Returns the ownership line that the line spells.
#[tactic(auto, unfolding(crate::specs::Reading::own_in))]
fn own_in(version: Version, line: &[u8]) -> Option<Own>
    ensures { result ≡ own_in version (words_of line.now) }
{
    let mut words = Words::new(line);
    match words.next_word()? {
        b"own" => ownership_of(version, &mut words),
        _ => None,
    }
}

/// Returns the ownership of a line `own` in a text of this version. A plan takes it as long as it has room.
///
/// In versions 1 and 2 it is for every cycle.
///
/// `None` for a line of another form: a line with cycles in versions 1 and 2, or one without in version 3. Also `None`
/// for a slot that isn't 1 to 1023, for startup frames that aren't sync frames, and if base and repetition are no cycle
/// counter filter (chapter 9).
pub fn own_of(version: Version, line: &[u8]) -> Option<Own>
    ensures found { IfSome result (λ o. line.now ≡ line_of (own_words version o)) }
    ensures fits { IfSome result IsSpelledOwn }
    ensures told { IfSome result (λ o. tells_own version o ≡ true) }
    ensures only { (o : Own) → IsSpelledOwn o → tells_own version o ≡ true → line.now ≡ line_of (own_words version o)
        → result ≡ Some o }
    ensures exact { result ≡ own_in version (words_of line.now) }
{
    own_in(version, line)
}
