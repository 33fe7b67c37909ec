//! Worlds of a small graph.

ghost use Rattle.std.specs.Prelude.{◌≡◌, ◌≤◌, ◌<◌, ◌^◌, All, IfOk, length};
ghost use Rattle.walk_model.specs.declared.programme.StartRule.TheVariants.{Each};
ghost use Rattle.vertex_partition.specs.Limits.{most_parts};

use crate::worlds::World;
use csr_store::Rows;
use std::alloc::Global;
use std::test::Fail;
use std::thread::Threads;
use traveller::Run;
use vertex_partition::{Cuts, first_overflow, split};
use walk_model::{Edge, Fraction, Memory, Plan, Print, Rule, StartRule, greatest_factor};

fn edge(src: u32, dst: u32) -> Edge
    requires ends { (src < 3) × (dst < 3) }
    ensures ends { (result.src < 3) × (result.dst < 3) }
    ensures weight { (1 ≤ result.weight) × (result.weight < 2 ^ 62) }
{
    Edge {
        src,
        dst,
        weight: 1,
        kind: 0,
    }
}

/// A cycle of three vertices.
fn cycle(alloc: Global) -> Result<Vec<Edge>, Memory>
    ensures ends { IfOk result (λ r. All (λ e. (e.src < 3) × (e.dst < 3)) r.items) }
    ensures few { IfOk result (λ r. length r.items < 2 ^ 31) }
    ensures weights { IfOk result (λ r. All (λ e. (1 ≤ e.weight) × (e.weight < 2 ^ 62)) r.items) }
{
    let mut edges = Vec::new(alloc);
    edges.push(edge(0, 1))?;
    edges.push(edge(1, 2))?;
    edges.push(edge(2, 0))?;
    Ok(edges)
}

/// Uniform walks of so many steps from every vertex.
fn plan_of(length: u32) -> Plan
    requires { length ≤ 1048576 }
    ensures { result.start ≡ Each }
{
    Plan {
        weighted: false,
        undirected: false,
        length,
        start: StartRule::Each,
        retries: 32,
        stop: Fraction::never(),
        restart: Fraction::never(),
        rule: Rule::Plain,
    }
}

/// The world of the cycle in so many parts, before any step of its walks.
fn begun<R: Threads + Sync + AllocGlobal>(rt: &R, parts: u32, length: u32) -> Result<World, Fail>
    requires some { 1 ≤ parts }
    requires few { parts ≤ most_parts }
    requires length { length ≤ 1048576 }
{
    let alloc = rt.alloc();
    let plan = plan_of(length);
    let rows = Rows::build(alloc, cycle(alloc)?, 3)?;
    match first_overflow(&rows, plan.weighted, greatest_factor(&plan.rule)) {
        None => {}
        Some(_) => return Err(Fail::new("a vertex that overflows")),
    }
    let cuts = Cuts::balanced(alloc, &[2, 2, 2], parts)?;
    let parts = split(rt, rows, plan.weighted, &cuts)?;
    let run = Run {
        plan,
        seed: 7,
        vertices: 3,
        start: None,
    };
    Ok(World::begin(alloc, run, parts)?)
}

#[test]
fn walkers_begin_at_their_owners(rt: HostRuntime) -> Result<(), Fail> {
    for (parts, owned) in [(1, [0, 1, 2].as_slice()), (3, [0].as_slice())] {
        let world = begun(&rt, parts, 3)?;
        assert_eq!(rt; world.shards.len(), parts as usize);
        assert!(rt; world.flight.is_empty());
        for (k, shard) in world.shards.iter().enumerate() {
            assert_eq!(rt; shard.part() as usize, k);
            assert!(rt; shard.is_whole());
            assert_eq!(rt; shard.unfinished(), owned.len() as u64);
            assert_eq!(rt; shard.print_count(), owned.len() as u64);
            for j in 0..shard.print_count() {
                let at = owned[j as usize] + k as u32;
                let print = Print {
                    walker: u64::from(at),
                    step: 0,
                    at,
                };
                assert!(rt; shard.print(j) == print);
            }
        }
    }
    Ok(())
}

/// Walks of no step have their starts alone.
#[test]
fn prints_of_starts_are_walks_of_no_step(rt: HostRuntime) -> Result<(), Fail> {
    for parts in [1, 2, 3, 8] {
        let world = begun(&rt, parts, 0)?;
        let walks = world.finish(rt.alloc())?;
        assert_eq!(rt; walks.count(), 3);
        for i in 0..walks.count() {
            assert_eq!(rt; walks.walk(i), [i as u32].as_slice());
        }
    }
    Ok(())
}
