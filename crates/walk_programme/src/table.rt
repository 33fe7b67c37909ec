//! The table of a programme, and its keys.

ghost use Rattle.std.specs.Prelude.{◌≡◌, option_map, string_bytes, Some, IfOk, IfErr};
ghost use Rattle.toml.specs.Data.{get_member};
ghost use Rattle.toml.specs.View.{view, table_view};
ghost use Rattle.std.specs.Option.{ok_or};
ghost use Rattle.walk_programme.specs.Faults.{IsFault};
ghost use Rattle.walk_programme.specs.Programme.{table_of};
ghost use Rattle.walk_programme.specs.Table.{is_known, least_unknown};

use std::alloc::Global;
use toml::{Table, Value};
use walk_model::PlanFault;

/// The table of a text.
#[tactic(auto, unfolding(crate::specs::Programme::table_of))]
pub(crate) fn table_of(alloc: Global, text: &[u8]) -> Result<Table, PlanFault>
    ensures table { IfOk result (λ t. table_of text.now ≡ Some (table_view t)) }
    ensures fault { IfErr result (λ f. IsFault f (ok_or (table_of text.now) PlanFault.Text)) }
{
    match toml::table_from_slice(alloc, text) {
        Ok(table) => Ok(table),
        Err(error) if !error.is_memory() => Err(PlanFault::Text),
        Err(_) => Err(PlanFault::Memory),
    }
}

/// What a key of a table holds.
pub(crate) fn value_at<'a>(table: &'a Table, name: &str) -> Option<&'a Value>
    ensures { option_map (λ v. view v.now) result ≡ get_member name.now (table_view table.now) }
{
    table.get(name)
}

/// Whether a programme may have a key.
fn is_known(key: &str) -> bool
    ensures { result ≡ is_known key.now }
{
    matches!(
        key,
        "length"
            | "walkers"
            | "from"
            | "weighted"
            | "undirected"
            | "retries"
            | "stop"
            | "restart"
            | "scheme"
            | "p"
            | "q"
    )
}

/// The least key that a programme may not have.
pub(crate) fn least_unknown(table: &Table) -> Option<&String>
    ensures { option_map (λ k. string_bytes k.now) result ≡ least_unknown (table_view table.now) }
{
    for (key, _) in table.iter() {
        if !is_known(key.as_str()) {
            return Some(key);
        }
    }
    None
}
