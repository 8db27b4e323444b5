//! The lines of a cluster file: headers, and the pairs below them.
//!
//! Each function that returns an `Option` returns `None` for another form, and if an allocation fails.

ghost use Rattle.std.specs.Prelude.{◌≡◌, ◌<◌, ◌≤◌, [], Some, length, string_bytes, IfSome};
ghost use Rattle.fr_reader.specs.UsualText.{IsSection, IsHeader};
ghost use Rattle.toml.specs.Parse as grammar;
ghost use Rattle.toml.specs.Tables.{std_table, array_table};
ghost use Rattle.toml.specs.View.{table_view};
ghost use Rattle.toml_parser.specs.Lexical as lexical;

use crate::value::{add_pair, key_equals, value};
use std::alloc::Global;
use toml::Table;
use toml_parser::text::{byte_at, first, skip, skip_blank, skip_ws};
use toml_parser::{Key, dotted_key};

/// Returns whether the line ends here, or goes on with a comment.
fn ends_line(text: &str) -> bool
    ensures { result ≡ grammar.ends_line (lexical.skip_ws text.now) }
{
    let end = skip_ws(text);
    end.is_empty() || matches!(first(end), b'#' | b'\n' | b'\r')
}

/// Returns the table of the pairs up to the next header or the end, and the text after them.
pub(crate) fn pairs_in(alloc: Global, text: &str) -> Option<(Table, &str)>
    ensures read { IfSome result (λ p. IsSection text.now (table_view p.0) p.1.now) }
    ensures within { IfSome result (λ p. length p.1.now ≤ length text.now) }
{
    let mut table = Table::new(alloc);
    let mut rest = text;
    'pairs: loop {
        let start = skip_blank(rest, true);
        if start.is_empty() || first(start) == b'[' {
            return Some((table, rest));
        }
        let (key, at_value) = key_equals(alloc, start)?;
        let (value, after) = value(alloc, at_value)?;
        if !ends_line(after) || !add_pair(&mut table, key, value) {
            return None;
        }
        rest = after;
    }
}

/// Returns the key of a header, if it has no dots, and the text after its first closing bracket.
#[tactic(auto, unfolding(toml::specs::Parse::header_key))]
fn header_key(alloc: Global, text: &str) -> Option<(String, &str)>
    ensures read { IfSome result (λ p. grammar.header_key text.now ≡ Some (([], string_bytes p.0), p.1.now)) }
    ensures shorter { IfSome result (λ p. length p.1.now < length text.now) }
{
    let (key, rest) = dotted_key(alloc, skip_ws(text)).ok()?;
    let Key { path, last } = key;
    if !path.is_empty() || first(rest) != b']' {
        return None;
    }
    Some((last, skip(rest, 1)))
}

/// Returns the name in the header of a table, and the text after the header.
pub(crate) fn table_header(alloc: Global, text: &str) -> Option<(String, &str)>
    ensures read { IfSome result (λ p. IsHeader text.now (string_bytes p.0) std_table p.1.now) }
    ensures shorter { IfSome result (λ p. length p.1.now < length text.now) }
{
    let start = skip_blank(text, true);
    if first(start) != b'[' || byte_at(start, 1) == b'[' {
        return None;
    }
    let (name, rest) = header_key(alloc, skip(start, 1))?;
    if ends_line(rest) {
        Some((name, rest))
    } else {
        None
    }
}

/// Returns the text after the header of the next element of the array with this name.
pub(crate) fn after_array_header<'a>(alloc: Global, text: &'a str, name: &str) -> Option<&'a str>
    ensures read { IfSome result (λ rest. IsHeader text.now name.now array_table rest.now) }
    ensures shorter { IfSome result (λ rest. length rest.now < length text.now) }
{
    let start = skip_blank(text, true);
    if first(start) != b'[' || byte_at(start, 1) != b'[' {
        return None;
    }
    let (key, rest) = header_key(alloc, skip(start, 2))?;
    if key.as_str() != name || first(rest) != b']' {
        return None;
    }
    let rest = skip(rest, 1);
    if ends_line(rest) { Some(rest) } else { None }
}
