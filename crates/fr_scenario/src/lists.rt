//! The statements of a line of version 3 with lists: those of the lines for which it stands.
ghost use Rattle.std.specs.Prelude.{◌≡◌, ◌<◌, ◌≤◌, ◌+◌, ◌∷◌, IfOk, OnOk, length, map, option_map};
ghost use Rattle.std.specs.List.{position, slice_split};
ghost use Rattle.fr_scenario.specs.Choosing.{alone, chosen_said, elements_left, kept_if, onto};
ghost use Rattle.fr_scenario.specs.Lists.{few, is_comma, line_said, most_meant};
ghost use Rattle.fr_scenario.specs.Statements.{statement_said};

use crate::blanks::{LineWords, MOST_WORDS};
use crate::statement::Statement;
use crate::statements::statement_of;
use arrayvec::ArrayVec;
use fr_names::names::Names;
use memchr::memchr;
use std::alloc::{AllocError, Global};

/// The largest number of lines for which a line stands (project-defined).
const MOST_MEANT: usize = 64;

/// Returns the place of the first comma.
fn comma_in(bytes: &[u8]) -> Option<usize>
    ensures { result ≡ position is_comma bytes.now }
{
    memchr(b',', bytes)
}

/// Returns the bytes before the first comma, and those after it if there is one.
fn cut_at_comma(bytes: &[u8]) -> (&[u8], Option<&[u8]>)
    ensures { slice_split is_comma bytes.now ≡ result.0.now ∷ elements_left (option_map (λ rest. rest.now) result.1) }
{
    match comma_in(bytes) {
        Some(at) => (&bytes[..at], Some(&bytes[at + 1..])),
        None => (bytes, None),
    }
}

/// Adds the statement of a line with these words, and returns whether it has one and there is room for it.
fn add_chosen(
    names: &Names,
    chosen: &[&[u8]],
    said: &mut Vec<Statement>,
) -> Result<bool, AllocError>
    requires { length said.old.items ≤ most_meant }
    ensures { IfOk result (λ done. kept_if done said.new.items
        ≡ few (onto said.old.items (alone (statement_said names.now (map (λ word. word.now) chosen.now))))) }
{
    let Some(statement) = statement_of(names, chosen) else {
        return Ok(false);
    };
    if said.len() >= MOST_MEANT {
        return Ok(false);
    }
    said.push(statement)?;
    Ok(true)
}

/// Adds the statements of the lines with the chosen words and an element of each word that is left. Returns whether
/// each line has one, and there is room for all.
fn add_choices<'a>(
    names: &Names,
    chosen: &mut LineWords<'a>,
    left: &[&'a [u8]],
    said: &mut Vec<Statement>,
) -> Result<bool, AllocError>
    requires words { length chosen.old.items + length left.now ≤ MOST_WORDS }
    requires few { length said.old.items ≤ most_meant }
    ensures said { IfOk result (λ done. kept_if done said.new.items ≡ few (onto said.old.items
        (chosen_said names.now (map (λ word. word.now) chosen.old.items) (map (λ word. word.now) left.now)))) }
    ensures chosen { OnOk result (chosen.new.items ≡ chosen.old.items) }
{
    let Some((word, others)) = left.split_first() else {
        return add_chosen(names, chosen.as_slice(), said);
    };
    let mut elements = Some(*word);
    while let Some(bytes) = elements {
        let (element, after) = cut_at_comma(bytes);
        chosen.push(element);
        let done = add_choices(names, chosen, others, said)?;
        chosen.pop();
        if !done {
            return Ok(false);
        }
        elements = after;
    }
    Ok(true)
}

/// Returns the statements of a line with this first word and these words after it.
fn statements_from<'a>(
    alloc: Global,
    names: &Names,
    kind: &'a [u8],
    left: &[&'a [u8]],
) -> Result<Option<Vec<Statement>>, AllocError>
    requires { length left.now < MOST_WORDS }
    ensures { IfOk result (λ said. option_map (λ statements. statements.items) said
        ≡ line_said names.now (kind.now ∷ map (λ word. word.now) left.now)) }
{
    let mut chosen = ArrayVec::new();
    chosen.push(kind);
    let mut said = Vec::with_capacity(alloc, 1)?;
    if add_choices(names, &mut chosen, left, &mut said)? {
        Ok(Some(said))
    } else {
        Ok(None)
    }
}

/// Returns the statements of a line with these words: those of the lines for which it stands.
///
/// `None` if it stands for more than 64 lines, or for one without a statement.
pub(crate) fn statements_of_line<'a>(
    alloc: Global,
    names: &Names,
    words: &[&'a [u8]],
) -> Result<Option<Vec<Statement>>, AllocError>
    requires { length words.now ≤ MOST_WORDS }
    ensures { IfOk result (λ said. option_map (λ statements. statements.items) said
        ≡ line_said names.now (map (λ word. word.now) words.now)) }
{
    match words {
        [] => Ok(Some(Vec::new(alloc))),
        [kind, left @ ..] => statements_from(alloc, names, kind, left),
    }
}
