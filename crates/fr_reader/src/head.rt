//! The pairs and tables of a cluster file before its nodes.

ghost use Rattle.std.specs.Prelude.{◌≡◌, Ok, IfSome};
ghost use Rattle.fr_reader.specs.UsualText.{IsHead};
ghost use Rattle.fr_schedule.specs.Files.{params_in};
ghost use Rattle.fr_slots.specs.Parameters.{IsParameters};
ghost use Rattle.toml.specs.View.{table_view};

use crate::section::{pairs_in, table_header};
use crate::value::add_pair;
use fr_params::table::{from_table, value_under};
use fr_slots::params::Params;
use std::alloc::Global;
use toml::{Table, Value};

/// Returns the table of the pairs and tables that come first, and the text after them.
///
/// Returns `None` for a pair of another form, for a key that stands twice, and if an allocation fails. Any other header
/// ends the tables.
pub(crate) fn head_in(alloc: Global, text: &str) -> Option<(Table, &str)>
    ensures { IfSome result (λ p. IsHead text.now (table_view p.0) p.1.now) }
{
    let (mut root, mut rest) = pairs_in(alloc, text)?;
    'tables: loop {
        let Some((name, after)) = table_header(alloc, rest) else {
            return Some((root, rest));
        };
        let (table, next) = pairs_in(alloc, after)?;
        if !add_pair(&mut root, name, Value::Table(table)) {
            return None;
        }
        rest = next;
    }
}

/// Returns the parameters in the table `params`, if it is there and they have no fault.
#[tactic(auto, unfolding(fr_schedule::specs::Files::params_in))]
pub(crate) fn params_of(root: &Table) -> Option<Params>
    ensures value { IfSome result (λ params. params_in (table_view root.now) ≡ Ok params) }
    ensures lawful { IfSome result IsParameters }
{
    let value = value_under(root, "params")?;
    let table = value.as_table()?;
    from_table(table).ok()
}
