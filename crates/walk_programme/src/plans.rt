//! Programmes and their plans.

ghost use Rattle.std.specs.Prelude.{◌≡◌, ◌≤◌, length, IfOk, IfErr, IfSome, IsTrue, Result, Some, Ok, string_bytes};
ghost use Rattle.toml.specs.View.{table_view};
ghost use Rattle.walk_model.specs.Ranges.{rule_in_range, start_in_range};
ghost use Rattle.walk_model.specs.Settings.{Settings};
ghost use Rattle.walk_model.specs.declared.faults.PlanFault.{PlanFault};
ghost use Rattle.walk_programme.specs.Faults.{IsFault};
ghost use Rattle.walk_programme.specs.Programme.{one, start_of, rule_of, plan_of_values, plan_of_table, plan_of, unless_unknown, IsInRange};

use crate::table::{least_unknown, table_of, value_at};
use crate::values::{Values, read_values};
use std::alloc::Global;
use toml::Table;
use walk_model::{Fraction, Key, KeyText, Kinds, Plan, PlanFault, Rule, StartRule};

/// Where the walkers start.
fn start_of(walkers: Option<u32>, from: Option<u32>) -> StartRule
    requires { IfSome walkers (λ n. n ≤ 16777216) }
    ensures start { result ≡ start_of walkers from }
    ensures range { IsTrue (start_in_range result) }
{
    match (walkers, from) {
        (None, _) => StartRule::Each,
        (Some(walkers), None) => StartRule::Spread { walkers },
        (Some(walkers), Some(id)) => StartRule::From { walkers, id },
    }
}

/// The fraction 1/1.
fn one() -> Fraction
    ensures { result ≡ one }
{
    Fraction { top: 1, bottom: 1 }
}

/// How the walkers choose.
fn rule_of(scheme: Option<Kinds>, p: Option<Fraction>, q: Option<Fraction>) -> Rule
    requires p { IfSome p (λ r. 1 ≤ r.top) }
    requires q { IfSome q (λ r. 1 ≤ r.top) }
    ensures rule { result ≡ rule_of scheme p q }
    ensures range { IsTrue (rule_in_range result) }
{
    if let Some(kinds) = scheme {
        return Rule::Scheme { kinds };
    }
    if p.is_none() && q.is_none() {
        return Rule::Plain;
    }
    Rule::Node2vec {
        p: p.unwrap_or(one()),
        q: q.unwrap_or(one()),
    }
}

/// The plan of values, or how they clash.
#[tactic(auto, unfolding(crate::specs::Programme::plan_of_values))]
fn plan_of_values(values: Values) -> Result<Plan, PlanFault>
    requires { IsInRange values }
    ensures { result ≡ plan_of_values values }
{
    if values.from.is_some() && values.walkers.is_none() {
        return Err(PlanFault::Clash { key: Key::From });
    }
    if values.scheme.is_some() && (values.p.is_some() || values.q.is_some()) {
        return Err(PlanFault::Clash { key: Key::Scheme });
    }
    Ok(Plan {
        weighted: values.weighted,
        undirected: values.undirected,
        length: values.length,
        start: start_of(values.walkers, values.from),
        retries: values.retries,
        stop: values.stop,
        restart: values.restart,
        rule: rule_of(values.scheme, values.p, values.q),
    })
}

/// The fault of a key that a programme may not have.
fn unknown_key(alloc: Global, key: &String) -> PlanFault
    ensures { (later : Result Settings PlanFault) →
        IsFault result (unless_unknown (Some (string_bytes key.now)) later) }
{
    match Vec::from_slice(alloc, key.as_bytes()) {
        Ok(bytes) => PlanFault::UnknownKey {
            key: KeyText::of(bytes),
        },
        Err(_) => PlanFault::Memory,
    }
}

/// The plan of a table, or its first fault.
#[tactic(auto, unfolding(crate::specs::Programme::plan_of_table))]
fn plan_of_table(alloc: Global, table: &Table) -> Result<Plan, PlanFault>
    ensures plan { IfOk result (λ p. plan_of_table (table_view table.now) ≡ Ok p) }
    ensures fault { IfErr result (λ f. IsFault f (plan_of_table (table_view table.now))) }
{
    if let Some(key) = least_unknown(table) {
        return Err(unknown_key(alloc, key));
    }
    if value_at(table, "length").is_none() {
        return Err(PlanFault::Missing { key: Key::Length });
    }
    let values = read_values(alloc, table)?;
    plan_of_values(values)
}

/// The plan of a programme, which is a TOML document of at most 65,536 bytes.
///
/// # Errors
///
/// The first of these: the text isn't a TOML document; a key is unknown, of these the least by its
/// bytes; `length` is missing; a value isn't as its key wants it, the first in the order of `Key`;
/// `from` stands without a number of walkers; `scheme` stands beside `p` or `q`. Besides, there may
/// be no memory.
#[tactic(auto, unfolding(crate::specs::Programme::plan_of))]
pub fn read_plan(alloc: Global, text: &[u8]) -> Result<Plan, PlanFault>
    requires { length text.now ≤ 65536 }
    ensures plan { IfOk result (λ p. plan_of text.now ≡ Ok p) }
    ensures fault { IfErr result (λ f. IsFault f (plan_of text.now)) }
{
    let table = table_of(alloc, text)?;
    plan_of_table(alloc, &table)
}
