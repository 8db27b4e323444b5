//! Reading the value under a key of a table of a cluster file.

ghost use Rattle.std.specs.Prelude.{◌≡◌, ◌≤◌, ◌<◌, length, map, option_map, option_copied, IfSome, IsTrue};
ghost use Rattle.std.specs.Prelude.{nat_le, ◌&&◌};
ghost use Rattle.fr_slots.specs.Numbers.{last_slot, most_lines};
ghost use Rattle.std.specs.List.{list_all};
ghost use Rattle.fr_schedule.specs.TableReading.{number_in, number_at, number_or, flag_at, word_at};
ghost use Rattle.fr_schedule.specs.TableReading.{channels_named, mode_named, channels_in, mode_in, cycles_in};
ghost use Rattle.fr_schedule.specs.TableReading.{array_in, is_table, tables_in, tables_at};
ghost use Rattle.toml.specs.View.{view, table_view};

use fr_params::table::value_under;
use fr_slots::channel::Channels;
use fr_slots::filter::CycleFilter;
use fr_slots::numbers::{CYCLES, SlotId};
use fr_slots::plan::{LINES, Mode};
use toml::{Table, Value};

// The greatest numbers of a cycle filter, in the type of the numbers that are read.
const MOST_CYCLES: u32 = CYCLES as u32;

const LAST_CYCLE: u32 = MOST_CYCLES - 1;

/// Returns the value as a number, if it is an integer from the least to the greatest one.
#[tactic(auto, unfolding(crate::specs::TableReading::number_in))]
fn number_in(value: &Value, least: u32, greatest: u32) -> Option<u32>
    ensures value { result ≡ number_in least greatest (view value.now) }
    ensures at_least { IfSome result (λ n. least ≤ n) }
    ensures at_most { IfSome result (λ n. n ≤ greatest) }
{
    let number = value.as_integer()?;
    if i64::from(least) <= number && number <= i64::from(greatest) {
        Some(number as u32)
    } else {
        None
    }
}

/// Returns the number under a key that must be there.
#[tactic(auto, unfolding(crate::specs::TableReading::number_at))]
pub(crate) fn number_at(table: &Table, name: &str, least: u32, greatest: u32) -> Option<u32>
    ensures value { result ≡ number_at name.now least greatest (table_view table.now) }
    ensures at_least { IfSome result (λ n. least ≤ n) }
    ensures at_most { IfSome result (λ n. n ≤ greatest) }
{
    let value = value_under(table, name)?;
    number_in(value, least, greatest)
}

/// Returns the number under a key, or the default if the key is absent.
#[tactic(auto, unfolding(crate::specs::TableReading::number_or))]
pub(crate) fn number_or(
    table: &Table,
    name: &str,
    least: u32,
    greatest: u32,
    usual: u32,
) -> Option<u32>
    requires { usual ≤ greatest }
    ensures value { result ≡ number_or name.now least greatest usual (table_view table.now) }
    ensures at_most { IfSome result (λ n. n ≤ greatest) }
{
    match value_under(table, name) {
        Some(value) => number_in(value, least, greatest),
        None => Some(usual),
    }
}

/// Returns the slot under a key that must be there, up to the greatest one.
pub(crate) fn slot_at(table: &Table, name: &str, greatest: u16) -> Option<SlotId>
    requires { greatest ≤ last_slot }
    ensures { result ≡ number_at name.now 1 greatest (table_view table.now) }
{
    let number = number_at(table, name, 1, u32::from(greatest))?;
    SlotId::new(number as u16)
}

/// Returns the flag under a key, which is false if the key is absent.
#[tactic(auto, unfolding(crate::specs::TableReading::flag_at))]
pub(crate) fn flag_at(table: &Table, name: &str) -> Option<bool>
    ensures { result ≡ flag_at name.now (table_view table.now) }
{
    match value_under(table, name) {
        Some(value) => value.as_bool(),
        None => Some(false),
    }
}

/// Returns the word under a key that must be there.
#[tactic(auto, unfolding(crate::specs::TableReading::word_at))]
fn word_at<'a>(table: &'a Table, name: &str) -> Option<&'a str>
    ensures { option_copied result ≡ word_at name.now (table_view table.now) }
{
    let value = value_under(table, name)?;
    value.as_str()
}

/// Returns the channels of this name.
#[tactic(auto, unfolding(crate::specs::TableReading::channels_named))]
pub(crate) fn channels_named(word: &str) -> Option<Channels>
    ensures { result ≡ channels_named word.now }
{
    match word.as_bytes() {
        b"A" => Some(Channels::A),
        b"B" => Some(Channels::B),
        b"AB" => Some(Channels::Both),
        _ => None,
    }
}

/// Returns the mode of a buffer of this name.
#[tactic(auto, unfolding(crate::specs::TableReading::mode_named))]
fn mode_named(word: &str) -> Option<Mode>
    ensures { result ≡ mode_named word.now }
{
    if word == "event" {
        Some(Mode::Event)
    } else if word == "state" {
        Some(Mode::State)
    } else if word == "receive" {
        Some(Mode::Receive)
    } else {
        None
    }
}

/// Returns the channels under the key `channels`.
#[tactic(auto, unfolding(crate::specs::TableReading::channels_in))]
pub(crate) fn channels_in(table: &Table) -> Option<Channels>
    ensures { result ≡ channels_in (table_view table.now) }
{
    let word = word_at(table, "channels")?;
    channels_named(word)
}

/// Returns the mode of a buffer under the key `kind`.
#[tactic(auto, unfolding(crate::specs::TableReading::mode_in))]
pub(crate) fn mode_in(table: &Table) -> Option<Mode>
    ensures { result ≡ mode_in (table_view table.now) }
{
    let word = word_at(table, "kind")?;
    mode_named(word)
}

/// Returns the cycles under the keys `base` and `repetition`, or every cycle if both are absent.
#[tactic(auto, unfolding(crate::specs::TableReading::cycles_in))]
pub(crate) fn cycles_in(table: &Table) -> Option<CycleFilter>
    ensures { result ≡ cycles_in (table_view table.now) }
{
    let base = number_or(table, "base", 0, LAST_CYCLE, 0)?;
    let repetition = number_or(table, "repetition", 1, MOST_CYCLES, 1)?;
    match CycleFilter::new(base as u8, repetition as u8) {
        Ok(cycles) => Some(cycles),
        Err(_) => None,
    }
}

/// Returns the values of an array.
#[tactic(auto, unfolding(crate::specs::TableReading::array_in))]
pub(crate) fn array_in(value: &Value) -> Option<&[Value]>
    ensures { option_map (λ values. map view values.now) result ≡ array_in (view value.now) }
{
    let array = value.as_array()?;
    Some(array.as_slice())
}

/// Returns whether the value is a table.
fn is_table(value: &Value) -> bool
    ensures { result ≡ is_table (view value.now) }
{
    value.is_table()
}

/// Returns whether every value is a table.
fn are_tables(values: &[Value]) -> bool
    ensures { result ≡ list_all (λ value. is_table (view value)) values.now }
{
    values.iter().all(|value| is_table(value))
}

/// Returns whether these are at most 64 tables.
fn are_few_tables(values: &[Value]) -> bool
    ensures value { result
        ≡ (nat_le (length values.now) most_lines && list_all (λ value. is_table (view value)) values.now) }
    ensures few { IsTrue result → length values.now ≤ most_lines }
{
    values.len() <= LINES && are_tables(values)
}

/// Returns the tables of an array of at most 64.
#[tactic(auto, using(crate::proofs::TableLemmas::few_tables_seen), unfolding(crate::specs::TableReading::tables_in))]
fn tables_in(value: &Value) -> Option<&[Value]>
    ensures value { option_map (λ values. map view values.now) result ≡ tables_in (view value.now) }
    ensures few { IfSome result (λ values. length values.now ≤ most_lines) }
{
    let values = array_in(value)?;
    if are_few_tables(values) {
        Some(values)
    } else {
        None
    }
}

/// Returns the tables of the array of at most 64 under a key, or none if the key is absent.
#[tactic(auto, unfolding(crate::specs::TableReading::tables_at))]
pub(crate) fn tables_at<'a>(table: &'a Table, name: &str) -> Option<&'a [Value]>
    ensures value { option_map (λ values. map view values.now) result ≡ tables_at name.now (table_view table.now) }
    ensures few { IfSome result (λ values. length values.now ≤ most_lines) }
{
    match value_under(table, name) {
        Some(value) => tables_in(value),
        None => Some(&[]),
    }
}
