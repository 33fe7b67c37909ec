//! What the keys of a programme hold.

ghost use Rattle.std.specs.Prelude.{◌≡◌, ◌≤◌, IfOk, IfErr, IfSome, Some, None, Ok, codes};
ghost use Rattle.toml.specs.Data.{get_member, as_bool};
ghost use Rattle.toml.specs.View.{table_view};
ghost use Rattle.walk_model.specs.Ratio.{never};
ghost use Rattle.walk_programme.specs.Faults.{IsFault};
ghost use Rattle.walk_programme.specs.Judges.{whole, walkers, chance, factor, scheme, told};
ghost use Rattle.walk_programme.specs.Programme.{IsInRange};
ghost use Rattle.walk_programme.specs.Table.{judged, values_of};

use crate::judges::{chance, factor, scheme, walkers, whole};
use crate::table::value_at;
use std::alloc::Global;
use toml::Table;
use walk_model::{Fraction, Key, Kinds, PlanFault};

/// The greatest length of a walk.
const MOST_LENGTH: u32 = 1048576;

/// The greatest id of a vertex.
const MOST_ID: u32 = 4294967295;

/// The greatest number of darts of a step.
const MOST_RETRIES: u32 = 1000;

/// The number of darts where none is told.
const USUAL_RETRIES: u32 = 32;

/// What the keys hold, with what stands for those that are missing.
#[derive(Drop)]
pub(crate) struct Values {
    pub length: u32,
    pub walkers: Option<u32>,
    pub from: Option<u32>,
    pub weighted: bool,
    pub undirected: bool,
    pub retries: u32,
    pub stop: Fraction,
    pub restart: Fraction,
    pub scheme: Option<Kinds>,
    pub p: Option<Fraction>,
    pub q: Option<Fraction>,
}

/// A whole number from 0 to `most`, or `missing`.
#[tactic(auto, unfolding(crate::specs::Table::judged))]
fn whole_or(table: &Table, name: &str, key: Key, missing: u32, most: u32) -> Result<u32, PlanFault>
    requires { missing ≤ most }
    ensures value { result ≡ judged key missing (whole most) (get_member name.now (table_view table.now)) }
    ensures within { IfOk result (λ n. n ≤ most) }
{
    match value_at(table, name) {
        None => Ok(missing),
        Some(value) => whole(value, most).ok_or(PlanFault::BadValue { key }),
    }
}

/// The number of walkers, if one is told.
#[tactic(auto, unfolding(crate::specs::Table::judged))]
fn walkers_of(table: &Table) -> Result<Option<u32>, PlanFault>
    ensures value { result ≡
        judged Key.Walkers None walkers (get_member (codes "walkers") (table_view table.now)) }
    ensures within { IfOk result (λ o. IfSome o (λ n. n ≤ 16777216)) }
{
    match value_at(table, "walkers") {
        None => Ok(None),
        Some(value) => walkers(value).ok_or(PlanFault::BadValue { key: Key::Walkers }),
    }
}

/// The fixed start, if one is told.
#[tactic(auto, unfolding(crate::specs::Table::judged))]
fn fixed_start(table: &Table) -> Result<Option<u32>, PlanFault>
    ensures { result ≡
        judged Key.From None (told (whole 4294967295)) (get_member (codes "from") (table_view table.now)) }
{
    match value_at(table, "from") {
        None => Ok(None),
        Some(value) => match whole(value, MOST_ID) {
            Some(id) => Ok(Some(id)),
            None => Err(PlanFault::BadValue { key: Key::From }),
        },
    }
}

/// True or false, or `missing`.
#[tactic(auto, unfolding(crate::specs::Table::judged))]
fn flag_or(table: &Table, name: &str, key: Key, missing: bool) -> Result<bool, PlanFault>
    ensures { result ≡ judged key missing as_bool (get_member name.now (table_view table.now)) }
{
    match value_at(table, name) {
        None => Ok(missing),
        Some(value) => value.as_bool().ok_or(PlanFault::BadValue { key }),
    }
}

/// A fraction from 0 to 1, or no chance.
#[tactic(auto, unfolding(crate::specs::Table::judged))]
fn chance_at(table: &Table, name: &str, key: Key) -> Result<Fraction, PlanFault>
    ensures value { result ≡ judged key never chance (get_member name.now (table_view table.now)) }
    ensures within { IfOk result (λ r. r.top ≤ r.bottom) }
{
    match value_at(table, name) {
        None => Ok(Fraction::never()),
        Some(value) => chance(value).ok_or(PlanFault::BadValue { key }),
    }
}

/// A fraction above 0, if one is told.
#[tactic(auto, unfolding(crate::specs::Table::judged))]
fn factor_at(table: &Table, name: &str, key: Key) -> Result<Option<Fraction>, PlanFault>
    ensures value { result ≡ judged key None (told factor) (get_member name.now (table_view table.now)) }
    ensures within { IfOk result (λ o. IfSome o (λ r. 1 ≤ r.top)) }
{
    match value_at(table, name) {
        None => Ok(None),
        Some(value) => match factor(value) {
            Some(factor) => Ok(Some(factor)),
            None => Err(PlanFault::BadValue { key }),
        },
    }
}

/// The types of a scheme, if one is told.
#[tactic(auto, unfolding(crate::specs::Table::judged))]
fn scheme_of(alloc: Global, table: &Table) -> Result<Option<Kinds>, PlanFault>
    ensures value { IfOk result (λ o.
        judged Key.Scheme None (told scheme) (get_member (codes "scheme") (table_view table.now)) ≡ Ok o) }
    ensures fault { IfErr result (λ f.
        IsFault f (judged Key.Scheme None (told scheme) (get_member (codes "scheme") (table_view table.now)))) }
{
    match value_at(table, "scheme") {
        None => Ok(None),
        Some(value) => match scheme(alloc, value) {
            Ok(Some(kinds)) => Ok(Some(kinds)),
            Ok(None) => Err(PlanFault::BadValue { key: Key::Scheme }),
            Err(_) => Err(PlanFault::Memory),
        },
    }
}

/// What the keys of a table hold, or the first that holds a bad value.
pub(crate) fn read_values(alloc: Global, table: &Table) -> Result<Values, PlanFault>
    ensures values { IfOk result (λ v. values_of (table_view table.now) ≡ Ok v) }
    ensures fault { IfErr result (λ f. IsFault f (values_of (table_view table.now))) }
    ensures range { IfOk result IsInRange }
{
    let length = whole_or(table, "length", Key::Length, 0, MOST_LENGTH)?;
    let walkers = walkers_of(table)?;
    let from = fixed_start(table)?;
    let weighted = flag_or(table, "weighted", Key::Weighted, true)?;
    let undirected = flag_or(table, "undirected", Key::Undirected, false)?;
    let retries = whole_or(table, "retries", Key::Retries, USUAL_RETRIES, MOST_RETRIES)?;
    let stop = chance_at(table, "stop", Key::Stop)?;
    let restart = chance_at(table, "restart", Key::Restart)?;
    let scheme = scheme_of(alloc, table)?;
    let p = factor_at(table, "p", Key::P)?;
    let q = factor_at(table, "q", Key::Q)?;
    Ok(Values {
        length,
        walkers,
        from,
        weighted,
        undirected,
        retries,
        stop,
        restart,
        scheme,
        p,
        q,
    })
}
