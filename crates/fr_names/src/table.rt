//! The names in the tables of a cluster file.

ghost use Rattle.std.specs.Prelude.{◌≡◌, ◌≤◌, length, map, take, option_map, option_copied, IfOk};
ghost use Rattle.fr_names.specs.FileNames.{name_in, name_of, values_at, buffers_in};
ghost use Rattle.fr_schedule.specs.TableReading.{array_in, word_at};
ghost use Rattle.fr_slots.specs.Numbers.{most_lines};
ghost use Rattle.toml.specs.Data.{as_table};
ghost use Rattle.toml.specs.View.{view, table_view};

use crate::name::{Name, is_name};
use fr_params::table::value_under;
use fr_slots::plan::LINES;
use std::alloc::{AllocError, Global};
use toml::{Table, Value};

/// Returns the string under a key.
#[tactic(auto, unfolding(fr_schedule::specs::TableReading::word_at))]
fn word_at<'a>(table: &'a Table, key: &str) -> Option<&'a str>
    ensures { option_copied result ≡ word_at key.now (table_view table.now) }
{
    let value = value_under(table, key)?;
    value.as_str()
}

/// Returns the string under the key `name`, if it has the form of a name.
#[tactic(auto, unfolding(crate::specs::FileNames::name_in))]
fn name_in(table: &Table) -> Option<&str>
    ensures { option_copied result ≡ name_in (table_view table.now) }
{
    let word = word_at(table, "name")?;
    if is_name(word.as_bytes()) {
        Some(word)
    } else {
        None
    }
}

/// Returns the string under the key `name` of a node's or buffer's value, if it has the form of a name.
#[tactic(auto, unfolding(crate::specs::FileNames::name_of))]
fn word_of(value: &Value) -> Option<&str>
    ensures { option_copied result ≡ name_of (view value.now) }
{
    let table = value.as_table()?;
    name_in(table)
}

/// Returns the name in a node's or buffer's value, if it has one.
pub(crate) fn name_of(alloc: Global, value: &Value) -> Result<Option<Name>, AllocError>
    ensures { IfOk result (λ name. name ≡ name_of (view value.now)) }
{
    match word_of(value) {
        None => Ok(None),
        Some(word) => {
            let name = Name::new(alloc, word.as_bytes())?;
            Ok(Some(name))
        }
    }
}

/// Returns the names in the values of buffers.
pub(crate) fn names_of_buffers(
    alloc: Global,
    values: &[Value],
) -> Result<Vec<Option<Name>>, AllocError>
    ensures names { IfOk result (λ names. names.items ≡ map name_of (map view values.now)) }
    ensures len { IfOk result (λ names. length names.items ≡ length values.now) }
{
    let mut names = Vec::new(alloc);
    for value in values {
        let name = name_of(alloc, value)?;
        names.push(name)?;
    }
    Ok(names)
}

/// Returns the values of an array.
#[tactic(auto, unfolding(fr_schedule::specs::TableReading::array_in))]
fn array_in(value: &Value) -> Option<&[Value]>
    ensures { option_map (λ values. map view values.now) result ≡ array_in (view value.now) }
{
    let array = value.as_array()?;
    Some(array.as_slice())
}

/// Returns the values of the array under a key, or none if there is no array.
#[tactic(auto, unfolding(crate::specs::FileNames::values_at))]
fn values_at<'a>(table: &'a Table, key: &str) -> &'a [Value]
    ensures { map view result.now ≡ values_at key.now (table_view table.now) }
{
    let Some(value) = value_under(table, key) else {
        return &[];
    };
    match array_in(value) {
        Some(values) => values,
        None => &[],
    }
}

/// Returns the first values, at most this number.
fn first_of(values: &[Value], most: usize) -> &[Value]
    ensures value { result.now ≡ take most values.now }
    ensures few { length result.now ≤ most }
{
    if values.len() <= most {
        values
    } else {
        &values[..most]
    }
}

/// Returns the values of the array under a key, at most this number.
pub(crate) fn first_values_at<'a>(table: &'a Table, key: &str, most: usize) -> &'a [Value]
    ensures value { map view result.now ≡ take most (values_at key.now (table_view table.now)) }
    ensures few { length result.now ≤ most }
{
    let values = values_at(table, key);
    first_of(values, most)
}

/// Returns the values of a node's buffers, at most 64.
pub(crate) fn buffers_in(node: &Value) -> &[Value]
    ensures value { map view result.now ≡ take most_lines (buffers_in (as_table (view node.now))) }
    ensures few { length result.now ≤ most_lines }
{
    match node.as_table() {
        Some(table) => first_values_at(table, "buffer", LINES),
        None => &[],
    }
}
