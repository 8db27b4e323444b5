//! The words of a task's call, for scenarios and sessions.
ghost use Rattle.std.specs.Prelude.{◌≡◌};
ghost use Rattle.fr_scenario.specs.CallReading.{commit_in, withdraw_in, read_in, pop_in, call_in};

use fr_interface::call::Call;
use fr_lines::parts::{buffer_of, payload_of};
use fr_text::words::Words;

/// Returns the commit whose buffer and payload are the words that are left.
#[tactic(auto, unfolding(crate::specs::CallReading::commit_in))]
fn commit_of(words: &mut Words<'_>) -> Option<Call>
    ensures { result ≡ commit_in words.old }
{
    let (buffer, payload) = words.two()?;
    let buffer = buffer_of(buffer)?;
    let payload = payload_of(payload)?;
    Some(Call::Commit { buffer, payload })
}

/// Returns the withdraw whose buffer is the word that is left.
#[tactic(auto, unfolding(crate::specs::CallReading::withdraw_in))]
fn withdraw_of(words: &mut Words<'_>) -> Option<Call>
    ensures { result ≡ withdraw_in words.old }
{
    let buffer = words.next_word()?;
    words.end()?;
    let buffer = buffer_of(buffer)?;
    Some(Call::Withdraw { buffer })
}

/// Returns the read whose buffer is the word that is left.
#[tactic(auto, unfolding(crate::specs::CallReading::read_in))]
fn read_of(words: &mut Words<'_>) -> Option<Call>
    ensures { result ≡ read_in words.old }
{
    let buffer = words.next_word()?;
    words.end()?;
    let buffer = buffer_of(buffer)?;
    Some(Call::Read { buffer })
}

/// Returns the pop, if no word is left.
#[tactic(auto, unfolding(crate::specs::CallReading::pop_in))]
fn pop_of(words: &mut Words<'_>) -> Option<Call>
    ensures { result ≡ pop_in words.old }
{
    words.end()?;
    Some(Call::Pop)
}

/// Returns the call of this kind that the words spell (project-defined): for a commit a buffer and a payload, for a
/// withdraw or a read a buffer, for a pop no word.
///
/// `None` if the kind is another word, there are more or fewer words, or a number is out of its range.
#[tactic(auto, unfolding(crate::specs::CallReading::call_in))]
pub fn call_of(kind: &[u8], words: &mut Words<'_>) -> Option<Call>
    ensures { result ≡ call_in kind.now words.old }
{
    if kind == b"commit".as_slice() {
        return commit_of(words);
    }
    if kind == b"withdraw".as_slice() {
        return withdraw_of(words);
    }
    if kind == b"read".as_slice() {
        return read_of(words);
    }
    if kind == b"pop".as_slice() {
        return pop_of(words);
    }
    None
}
