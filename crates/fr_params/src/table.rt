//! Reading the table `params`.

ghost use Rattle.std.specs.Prelude.{◌≡◌, option_map, IfOk};
ghost use Rattle.fr_slots.specs.Parameters.{name_of, admits, IsWithin, AreFirst, AreLast, IsParameters, assembled};
ghost use Rattle.fr_params.specs.Table.{number_at, first_five, last_five, summed, parameters_in};
ghost use Rattle.toml.specs.Data.{get_member};
ghost use Rattle.toml.specs.View.{view, table_view};

use crate::error::ParamError;
use fr_slots::params::{Five, Key, Params};
use toml::{Table, Value};

/// Returns the parameters of a table (project-defined). Other keys are ignored.
///
/// Fails with the first key at fault in the order of `Key`. The error is `Missing` if the table doesn't have the key,
/// `NotANumber` if its value isn't an integer, `OutOfRange` if the integer is out of the key's range. Then it fails
/// with `CycleSum` if `static_slots * static_mt + minislots * minislot_mt + symbol_mt + nit_mt` isn't `cycle_mt`.
#[tactic(auto, unfolding(crate::specs::Table::parameters_in))]
pub fn from_table(table: &Table) -> Result<Params, ParamError>
    ensures value { result ≡ parameters_in (table_view table.now) }
    ensures lawful { IfOk result IsParameters }
{
    // Each key is tested completely before the next, so a missing key comes before a later one out of range.
    let first = first_five(table)?;
    let last = last_five(table)?;
    params_of(first, last)
}

/// Returns the parameters of numbers that their keys admit.
fn params_of(first: Five, last: Five) -> Result<Params, ParamError>
    requires first_within { AreFirst first }
    requires last_within { AreLast last }
    ensures value { result ≡ summed (assembled first last) }
    ensures lawful { IfOk result IsParameters }
{
    // Each number is in its range, so only the sum can be refused.
    match Params::assemble(first, last) {
        Ok(params) => Ok(params),
        Err(_) => Err(ParamError::CycleSum),
    }
}

/// Returns the numbers under the first five keys.
#[tactic(auto, unfolding(crate::specs::Table::first_five))]
fn first_five(table: &Table) -> Result<Five, ParamError>
    ensures value { result ≡ first_five (table_view table.now) }
    ensures within { IfOk result AreFirst }
{
    let static_slots = number_at(table, Key::StaticSlots)?;
    let minislots = number_at(table, Key::Minislots)?;
    let static_words = number_at(table, Key::StaticWords)?;
    let static_mt = number_at(table, Key::StaticMt)?;
    let minislot_mt = number_at(table, Key::MinislotMt)?;
    Ok((
        static_slots,
        minislots,
        static_words,
        static_mt,
        minislot_mt,
    ))
}

/// Returns the numbers under the last five keys.
#[tactic(auto, unfolding(crate::specs::Table::last_five))]
fn last_five(table: &Table) -> Result<Five, ParamError>
    ensures value { result ≡ last_five (table_view table.now) }
    ensures within { IfOk result AreLast }
{
    let symbol_mt = number_at(table, Key::SymbolMt)?;
    let nit_mt = number_at(table, Key::NitMt)?;
    let cycle_mt = number_at(table, Key::CycleMt)?;
    let idle = number_at(table, Key::Idle)?;
    let words_per_minislot = number_at(table, Key::WordsPerMinislot)?;
    Ok((symbol_mt, nit_mt, cycle_mt, idle, words_per_minislot))
}

/// Returns the number under the key, if it is in the key's range.
#[tactic(auto, unfolding(crate::specs::Table::number_at))]
fn number_at(table: &Table, key: Key) -> Result<u16, ParamError>
    ensures value { result ≡ number_at key (table_view table.now) }
    ensures within { IfOk result (λ n. IsWithin key n) }
{
    let Some(value) = value_under(table, key.name()) else {
        return Err(ParamError::Missing(key));
    };
    let Some(number) = value.as_integer() else {
        return Err(ParamError::NotANumber(key));
    };
    if key.admits(number) {
        Ok(number as u16)
    } else {
        Err(ParamError::OutOfRange(key))
    }
}

/// Returns the table's value under the name, or none if there is no such key (project-defined).
pub fn value_under<'a>(table: &'a Table, name: &str) -> Option<&'a Value>
    ensures { option_map (λ v. view v.now) result ≡ get_member name.now (table_view table.now) }
{
    table.get(name)
}
