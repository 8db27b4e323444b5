//! Values of the usual kinds: strings and scalars, inline tables of these, and arrays of both.
//!
//! Each function that returns an `Option` returns `None` for another form, and if an allocation fails.

ghost use Rattle.std.specs.Prelude.{◌≡◌, ◌<◌, ◌≤◌, [], Some, length, string_bytes, IfSome, IsTrue};
ghost use Rattle.fr_reader.specs.UsualText.{IsAdded, IsInlineTable, IsElement, IsArray};
ghost use Rattle.toml.specs.Parse as grammar;
ghost use Rattle.toml.specs.View.{view, items_view, table_view};
ghost use Rattle.toml_parser.specs.Strings.{recursion_limit};

use fr_params::table::value_under;
use std::alloc::Global;
use toml::{Table, Value};
use toml_parser::text::{first, skip, skip_blank, skip_ws};
use toml_parser::{Key, Scalar, dotted_key, quoted, starts_string, unquoted};

/// Returns the value of a scalar.
fn scalar_value(scalar: Scalar) -> Value
    ensures { view result ≡ grammar.scalar_data scalar }
{
    match scalar {
        Scalar::Boolean(flag) => Value::Boolean(flag),
        Scalar::Integer(number) => Value::Integer(number),
        Scalar::Float(number) => Value::Float(number),
        Scalar::Datetime(datetime) => Value::Datetime(datetime),
    }
}

/// Returns the string or scalar at the front of the text, and the text after it.
#[tactic(auto, unfolding(toml::specs::Parse::atom))]
fn atom(alloc: Global, text: &str) -> Option<(Value, &str)>
    ensures read { IfSome result (λ p. grammar.atom text.now ≡ Some (view p.0, p.1.now)) }
    ensures shorter { IfSome result (λ p. length p.1.now < length text.now) }
{
    if starts_string(text) {
        let (word, rest) = quoted(alloc, text).ok()?;
        Some((Value::String(word), rest))
    } else {
        let (scalar, rest) = unquoted(alloc, text).ok()?;
        Some((scalar_value(scalar), rest))
    }
}

/// Returns the text after a comma, or the text at the closing bracket.
#[tactic(auto, unfolding(toml::specs::Parse::after_element))]
fn after_element(text: &str, closing: u8) -> Option<&str>
    ensures read { IfSome result (λ rest. grammar.after_element closing text.now ≡ Some rest.now) }
    ensures within { IfSome result (λ rest. length rest.now ≤ length text.now) }
{
    let rest = skip_blank(text, true);
    if first(rest) == b',' {
        Some(skip(rest, 1))
    } else if first(rest) == closing {
        Some(rest)
    } else {
        None
    }
}

/// Returns the key without dots at the front of the text, and the text at its value.
#[tactic(auto, unfolding(toml::specs::Parse::key_equals))]
pub(crate) fn key_equals(alloc: Global, text: &str) -> Option<(String, &str)>
    ensures read { IfSome result (λ p. grammar.key_equals text.now ≡ Some (([], string_bytes p.0), p.1.now)) }
    ensures shorter { IfSome result (λ p. length p.1.now < length text.now) }
{
    let (key, rest) = dotted_key(alloc, text).ok()?;
    let Key { path, last } = key;
    if !path.is_empty() || first(rest) != b'=' {
        return None;
    }
    Some((last, skip_ws(skip(rest, 1))))
}

/// Adds a pair to the table. Returns false if the table has the key, or if an allocation fails.
pub(crate) fn add_pair(table: &mut Table, key: String, value: Value) -> bool
    ensures { IsTrue result → IsAdded (string_bytes key) (view value) (table_view table.old) (table_view table.new) }
{
    if value_under(table, key.as_str()).is_some() {
        return false;
    }
    match table.insert(key, value) {
        Ok(_) => true,
        Err(_) => false,
    }
}

/// Returns the inline table after its opening brace, and the text after its closing one.
fn inline_table(alloc: Global, text: &str) -> Option<(Table, &str)>
    ensures read { IfSome result (λ p. IsInlineTable text.now (table_view p.0) p.1.now) }
    ensures shorter { IfSome result (λ p. length p.1.now < length text.now) }
{
    let mut table = Table::new(alloc);
    let mut rest = text;
    'members: loop {
        let start = skip_blank(rest, true);
        if first(start) == b'}' {
            return Some((table, skip(start, 1)));
        }
        let (key, at_value) = key_equals(alloc, start)?;
        if first(at_value) == b'[' || first(at_value) == b'{' {
            return None;
        }
        let (value, after) = atom(alloc, at_value)?;
        if !add_pair(&mut table, key, value) {
            return None;
        }
        rest = after_element(after, b'}')?;
    }
}

/// Returns the inline table, string or scalar at the front of the text, and the text after it.
fn element(alloc: Global, text: &str) -> Option<(Value, &str)>
    ensures read { IfSome result (λ p. IsElement text.now (view p.0) p.1.now) }
    ensures shorter { IfSome result (λ p. length p.1.now < length text.now) }
{
    if first(text) == b'[' {
        None
    } else if first(text) == b'{' {
        let (table, rest) = inline_table(alloc, skip(text, 1))?;
        Some((Value::Table(table), rest))
    } else {
        let (value, rest) = atom(alloc, text)?;
        Some((value, rest))
    }
}

/// Returns the values of the array after its opening bracket, and the text after its closing one.
fn array(alloc: Global, text: &str) -> Option<(Vec<Value>, &str)>
    ensures read { IfSome result (λ p. IsArray text.now (items_view p.0.items) p.1.now) }
    ensures shorter { IfSome result (λ p. length p.1.now < length text.now) }
{
    let mut values = Vec::new(alloc);
    let mut rest = text;
    'items: loop {
        let start = skip_blank(rest, true);
        if first(start) == b']' {
            return Some((values, skip(start, 1)));
        }
        let (value, after) = element(alloc, start)?;
        if values.push(value).is_err() {
            return None;
        }
        rest = after_element(after, b']')?;
    }
}

/// Returns the value at the front of the text, and the text after it.
pub(crate) fn value(alloc: Global, text: &str) -> Option<(Value, &str)>
    ensures read { IfSome result (λ p. grammar.val recursion_limit text.now ≡ Some (view p.0, p.1.now)) }
    ensures shorter { IfSome result (λ p. length p.1.now < length text.now) }
{
    if first(text) == b'[' {
        let (values, rest) = array(alloc, skip(text, 1))?;
        Some((Value::Array(values), rest))
    } else {
        let (value, rest) = element(alloc, text)?;
        Some((value, rest))
    }
}
