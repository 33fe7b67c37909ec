//! The tables of a range's rows. Rows of the same number of edges that all weigh 1 share one, so that
//! uniform steps read few tables, which stay in the caches. Each other row has a table of its own.

ghost use Rattle.std.specs.Prelude.{◌≡◌, ◌≤◌, ◌<◌, ◌+◌, ◌^◌, ◌↔◌, ℕ, Bool, List, length, map, replicate, slice_index, All, IfOk, IfSome, IfNone, IsTrue};
ghost use Rattle.walk_model.specs.Graph.{row, weights_of};
ghost use Rattle.alias_table.specs.Columns.{IsRow};
ghost use Rattle.csr_store.specs.RowGraph.{IsIn, HasSameRows};
ghost use Rattle.csr_store.specs.Shelves.{IsOutEdge};
ghost use Rattle.vertex_partition.specs.Tabled.{AreOwn, AreTables, AreTablesBut, AreShared, HasEdges, HasTable, Keeps};
ghost use Rattle.vertex_partition.specs.OutWeights.{out_weight};

use crate::own_tables::own_tables;
use alias_table::AliasTable;
use csr_store::{OutEdge, RowRange};
use std::alloc::Global;
use std::thread::Threads;
use walk_model::Memory;

/// Whether each edge of a row has the weight 1.
fn have_ones(row: &[OutEdge]) -> bool
    ensures { IsTrue result ↔ All (λ e. e.weight ≡ 1) row.now }
{
    row.iter().all(|e| e.weight == 1)
}

/// Whether the static weights of a row are all 1.
fn are_ones(weighted: bool, row: &[OutEdge]) -> bool
    ensures { IsTrue result → map (out_weight weighted) row.now ≡ replicate (length row.now) 1 }
{
    !weighted || have_ones(row)
}

/// Makes one more table, and answers its number.
fn add_table(alloc: Global, made: &mut Vec<AliasTable>, weights: &[u64]) -> Result<u32, Memory>
    requires row { IsRow weights.now }
    requires few { length made.old.items < 2 ^ 32 }
    ensures number { IfOk result (λ k. HasTable made.new.items k weights.now) }
    ensures keeps { IfOk result (λ _. Keeps made.old.items made.new.items) }
    ensures long { IfOk result (λ _. length made.new.items ≡ length made.old.items + 1) }
{
    let number = made.len() as u32;
    made.push(AliasTable::build(alloc, weights)?)?;
    Ok(number)
}

/// The number of the table of so many edges that weigh 1 each. It is made where there is none yet.
fn shared_table(
    alloc: Global,
    made: &mut Vec<AliasTable>,
    shared: &mut [Option<u32>],
    count: usize,
) -> Result<u32, Memory>
    requires some { 1 ≤ count }
    requires short { count < 2 ^ 31 }
    requires within { count < length shared.old }
    requires few { length made.old.items < 2 ^ 32 }
    requires shared { AreShared made.old.items shared.old }
    ensures number { IfOk result (λ k. HasTable made.new.items k (replicate count 1)) }
    ensures keeps { IfOk result (λ _. Keeps made.old.items made.new.items) }
    ensures few { IfOk result (λ _. length made.new.items ≤ length made.old.items + 1) }
    ensures shared { IfOk result (λ _. AreShared made.new.items shared.new) }
    ensures long { length shared.new ≡ length shared.old }
{
    if let Some(number) = shared[count] {
        return Ok(number);
    }
    let ones = vec![in alloc; 1u64; count]?;
    let number = add_table(alloc, made, &ones)?;
    shared[count] = Some(number);
    Ok(number)
}

/// The number of the table that a row shares, which is 0 where the row is empty, or none where its weights aren't all 1.
fn shared_by(
    alloc: Global,
    made: &mut Vec<AliasTable>,
    shared: &mut [Option<u32>],
    weighted: bool,
    row: &[OutEdge],
) -> Result<Option<u32>, Memory>
    requires short { length row.now < 2 ^ 31 }
    requires within { length row.now < length shared.old }
    requires few { length made.old.items < 2 ^ 32 }
    requires shared { AreShared made.old.items shared.old }
    ensures number { IfOk result (λ o. IfSome o (λ k. 0 < length row.now → HasTable made.new.items k (map (out_weight weighted) row.now))) }
    ensures none { IfOk result (λ o. IfNone o ((0 < length row.now) × (made.new.items ≡ made.old.items))) }
    ensures keeps { IfOk result (λ _. Keeps made.old.items made.new.items) }
    ensures few { IfOk result (λ _. length made.new.items ≤ length made.old.items + 1) }
    ensures shared { IfOk result (λ _. AreShared made.new.items shared.new) }
    ensures long { length shared.new ≡ length shared.old }
{
    if row.is_empty() {
        return Ok(Some(0));
    }
    if are_ones(weighted, row) {
        let number = shared_table(alloc, made, shared, row.len())?;
        return Ok(Some(number));
    }
    Ok(None)
}

/// The greatest number of edges from a vertex of a range.
fn longest_row(rows: &RowRange) -> usize
    ensures rows { (v : ℕ) → IsIn rows.now v → length (row rows.now.edges v) ≤ result }
    ensures few { result < 2 ^ 31 }
{
    let mut most = 0;
    for v in rows.first()..rows.end() {
        most = most.max(rows.row(v).len());
    }
    most
}

/// The tables that rows share, and the vertices of the other rows.
#[derive(Drop)]
struct Classed {
    made: Vec<AliasTable>,
    lone: Vec<u32>,
}

/// Makes the tables that rows of a range share, marks the vertices of these rows, and lists those of the others.
fn class_rows(alloc: Global, rows: &mut RowRange, weighted: bool) -> Result<Classed, Memory>
    ensures tables { IfOk result (λ c. AreTablesBut weighted rows.new c.made.items 0 c.lone.items) }
    ensures lone { IfOk result (λ c. All (HasEdges rows.new) c.lone.items) }
    ensures few { IfOk result (λ c. length c.made.items + length c.lone.items < 2 ^ 32) }
    ensures rows { HasSameRows rows.old rows.new }
{
    let mut made = Vec::new(alloc);
    let mut lone = Vec::new(alloc);
    let mut shared = vec![in alloc; None; longest_row(rows) + 1]?;
    for v in rows.first()..rows.end() {
        let row = rows.row(v);
        let Some(number) = shared_by(alloc, &mut made, &mut shared, weighted, row)? else {
            lone.push(v)?;
            continue;
        };
        rows.set_mark(v, number);
    }
    Ok(Classed { made, lone })
}

/// Marks vertices with the numbers of their own tables, which stand one after another from a first one on.
fn mark_lone(rows: &mut RowRange, first: u32, lone: &[u32])
    requires vertices { All (HasEdges rows.old) lone.now }
    requires few { first + length lone.now < 2 ^ 32 }
    ensures tables { (weighted : Bool) (tables : List (List ℕ)) → AreTablesBut weighted rows.old tables 0 lone.now
        → AreOwn weighted rows.old tables first lone.now → AreTables weighted rows.new tables }
    ensures rows { HasSameRows rows.old rows.new }
{
    for place in 0..lone.len() {
        rows.set_mark(lone[place], first + place as u32);
    }
}

/// Makes the tables of all rows of a range, and marks each vertex that has edges with the number of its table: first those that are
/// shared, in one pass, then the others, in several threads where there are many.
pub(crate) fn tables_by<R: Threads + Sync + AllocGlobal>(
    rt: &R,
    rows: &mut RowRange,
    weighted: bool,
) -> Result<Vec<AliasTable>, Memory>
    ensures tables { IfOk result (λ made. AreTables weighted rows.new made.items) }
    ensures rows { HasSameRows rows.old rows.new }
{
    let alloc = rt.alloc();
    let Classed { mut made, lone } = class_rows(alloc, rows, weighted)?;
    let lone = lone.as_slice();
    let first = made.as_slice().len() as u32;
    let mut own = own_tables(rt, alloc, rows, weighted, lone)?;
    made.append(&mut own)?;
    mark_lone(rows, first, lone);
    Ok(made)
}
