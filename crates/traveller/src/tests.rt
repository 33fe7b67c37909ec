//! Travellers and lanes by example, and beside the walks of the definition.

ghost use Rattle.std.specs.Prelude.{◌≡◌, ◌<◌, ℕ, All, IfOk, IsTrue};
ghost use Rattle.walk_model.specs.Cuts.{owner};
ghost use Rattle.traveller.specs.Replies.{Answers};
ghost use Rattle.traveller.specs.Standing.{IsWithin, StandsIn, Suits};
ghost use Rattle.traveller.specs.Walkers.{Walker, is_ready};

use super::*;
use crate::choosing::choose_from;
use crate::test_runs::{Case, Choice, Line, Ready, SEED, edges_of, make_ready, plan_of};
use std::alloc::Global;
use std::marker::Brand;
use std::process::Abort;
use std::sync::ledger::{Blank, Ledger};
use std::test::Fail;
use std::thread::Threads;
use vertex_partition::{Cuts, PartRows};
use walk_model::{Ask, Ends, Found, Question, Reply, State, Steps, can_walk, plain_walk};
use walker_stream::Streams;

/// How a walker is led: by whole turns, by turns in two halves, or in a lane.
#[derive(Clone, Copy, Debug, PartialEq, Eq)]
enum Lead {
    Turns,
    Halves,
    Lanes,
}

/// Whether a part has all vertices.
fn is_whole(part: &PartRows) -> bool
    ensures { IsTrue result → (v : ℕ) → v < part.now.vertices → owner part.now.cuts v ≡ part.now.part }
{
    let one = part.parts() == 1;
    let first = part.part() == 0;
    one && first
}

/// Whether a traveller at the beginning of a step can make it on a part.
fn can_step(run: &Run, part: &PartRows, traveller: &Traveller) -> bool
    requires { Suits run.now part.now }
    ensures stands { IsTrue result → StandsIn run.now part.now traveller.now }
    ensures ready { IsTrue result → IsTrue (is_ready traveller.now.mode) }
{
    let fresh = traveller.is_fresh();
    let within = traveller.is_within(part.vertices());
    let here = part.owner(traveller.at()) == part.part();
    fresh && within && here
}

/// The distinct ends of a vertex's edges in the graph of loops and edges side by side.
fn ends_in_tangle(alloc: Global, t: u32) -> Result<Ends, Fail> {
    let ends = match t {
        0 => Ends::of(vec![in alloc; 0, 1, 2]?),
        1 => Ends::of(vec![in alloc; 0, 2, 3]?),
        2 => Ends::of(vec![in alloc; 0, 1, 3]?),
        3 => Ends::of(vec![in alloc; 0, 1, 3, 4]?),
        _ => Ends::of(vec![in alloc]?),
    };
    Ok(ends)
}

/// The reply to an ask about that graph.
fn reply_to(alloc: Global, ask: Ask) -> Result<Reply, Fail>
    ensures ask { IfOk result (λ reply. reply.ask ≡ ask) }
    ensures answers { IfOk result (λ reply. Answers ask.question reply.found) }
{
    match ask.question {
        Question::Edge { t, x } => {
            let near = TANGLE.iter().any(|line| line.0 == t && line.1 == x);
            Ok(Reply {
                ask,
                found: Found::Edge { near },
            })
        }
        Question::Row { t } => {
            let ends = ends_in_tangle(alloc, t)?;
            Ok(Reply {
                ask,
                found: Found::Row { ends },
            })
        }
    }
}

/// A whole turn, in which each question is answered.
fn whole_turn<L: Ledger>(
    alloc: Global,
    run: &Run,
    part: &PartRows,
    traveller: &mut Traveller,
    steps: &mut Steps<L>,
) -> Result<Turn, Fail>
    requires { Suits run.now part.now }
{
    if !can_step(run, part, traveller) {
        return Err(Fail::new("a traveller that can't make its step here"));
    }
    'asking: for _ in 0..2000 {
        let turn = traveller.advance(run, part, steps);
        match traveller.question() {
            None => return Ok(turn),
            Some(question) => {
                if part.owner(traveller.at()) != part.part() {
                    return Err(Fail::new("a question from another part"));
                }
                let reply = reply_to(
                    alloc,
                    Ask {
                        walker: traveller.number(),
                        step: traveller.step() + 1,
                        home: part.part(),
                        question,
                    },
                )?;
                traveller.hear(run, part, &reply);
            }
        }
    }
    Err(Fail::new("a walker that asks on and on"))
}

/// Whether a traveller can go on within its step, from the edge that it has chosen.
fn can_go_on(run: &Run, part: &PartRows, traveller: &Traveller) -> bool
    requires stands { owner part.now.cuts traveller.now.state.at ≡ part.now.part → StandsIn run.now part.now traveller.now }
    requires within { IsWithin part.now.vertices traveller.now }
    ensures stands { IsTrue result → StandsIn run.now part.now traveller.now }
    ensures ready { IsTrue result → IsTrue (is_ready traveller.now.mode) }
{
    let goes = !traveller.has_ended();
    let waits = traveller.question().is_some();
    let here = part.owner(traveller.at()) == part.part();
    goes && !waits && here
}

/// A turn in two halves: the second begins where an edge is chosen.
fn turn_in_halves<L: Ledger>(
    run: &Run,
    part: &PartRows,
    traveller: &mut Traveller,
    steps: &mut Steps<L>,
) -> Result<Turn, Fail>
    requires { Suits run.now part.now }
{
    if !can_step(run, part, traveller) {
        return Err(Fail::new("a traveller that can't make its step here"));
    }
    let factors = rule_factors(&run.plan.rule);
    let mut reader = Streams::new(run.seed).reader(traveller.number(), 0);
    traveller.decide(run, &factors, part, &mut reader, steps);
    if traveller.is_fresh() || traveller.has_ended() {
        return Ok(traveller.turn());
    }
    if !can_go_on(run, part, traveller) {
        return Err(Fail::new("a choice that can't be taken here"));
    }
    Ok(traveller.advance(run, part, steps))
}

/// A turn in a lane, with what it reads ahead.
fn lane_turn<L: Ledger>(
    here: &WalkPart<'_>,
    lane: &mut Lane,
    steps: &mut Steps<L>,
) -> Result<Turn, Fail>
    requires { StandsIn here.now.run here.now.part lane.old }
    ensures { StandsIn here.now.run here.now.part lane.new }
{
    if !is_whole(here.part()) {
        return Err(Fail::new("a part that isn't whole"));
    }
    let Some(_print) = lane.print() else {
        return Err(Fail::new("a lane whose walk has ended"));
    };
    lane.arrive(here);
    lane.aim(here);
    lane.read_ahead(here);
    lane.decide(here, steps);
    lane.go(here);
    match lane.print() {
        Some(print) => Ok(Turn::Moved { to: print.at }),
        None => Ok(Turn::Ended),
    }
}

/// All turns in a lane.
fn lane_turns<L: Ledger>(
    alloc: Global,
    here: &WalkPart<'_>,
    lane: &mut Lane,
    steps: &mut Steps<L>,
) -> Result<Vec<Turn>, Fail>
    requires { StandsIn here.now.run here.now.part lane.old }
{
    let mut turns = Vec::new(alloc);
    'turning: for _ in 0..1000 {
        let turn = lane_turn(here, lane, steps)?;
        turns.push(turn)?;
        if lane.has_ended() {
            return Ok(turns);
        }
    }
    Ok(turns)
}

/// A walker at its start.
fn walker_of(run: &Run, number: u64) -> Result<Traveller, Fail> {
    if run.vertices == 0 || number >= run.walkers() {
        return Err(Fail::new("a walker that isn't there"));
    }
    let start = run.start_of(number);
    Ok(Traveller::new(run, number, start, run.plan.length))
}

/// All turns of a walker that goes in a lane on a part, where another walker has gone before.
fn turns_in_lane<L: Ledger>(
    alloc: Global,
    run: &Run,
    part: &PartRows,
    number: u64,
    steps: &mut Steps<L>,
) -> Result<Vec<Turn>, Fail>
    requires { Suits run.now part.now }
{
    let first = walker_of(run, 0)?;
    let second = walker_of(run, number)?;
    if !can_step(run, part, &first) {
        return Err(Fail::new("a first walker that can't begin here"));
    }
    if !can_step(run, part, &second) {
        return Err(Fail::new("a second walker that can't begin here"));
    }
    let here = WalkPart::of(run, part);
    let mut lane = Lane::of(run, first);
    let _before = lane_turn(&here, &mut lane, steps)?;
    lane.take(run, second);
    lane_turns(alloc, &here, &mut lane, steps)
}

/// A turn of a walker on the part that owns the vertex where it stands.
fn turn_at_home<L: Ledger>(
    alloc: Global,
    ready: &Ready,
    lead: Lead,
    traveller: &mut Traveller,
    steps: &mut Steps<L>,
) -> Result<Turn, Fail>
    requires { All (Suits ready.now.run) ready.now.parts.items }
{
    let at = traveller.at();
    for part in &ready.parts {
        if part.owner(at) == part.part() {
            return match lead {
                Lead::Halves => turn_in_halves(&ready.run, part, traveller, steps),
                _ => whole_turn(alloc, &ready.run, part, traveller, steps),
            };
        }
    }
    Err(Fail::new("a vertex that no part owns"))
}

/// All turns of a walker by itself. At its end it waits for nothing.
fn turns_alone<L: Ledger>(
    alloc: Global,
    ready: &Ready,
    number: u64,
    lead: Lead,
    steps: &mut Steps<L>,
) -> Result<Vec<Turn>, Fail>
    requires { All (Suits ready.now.run) ready.now.parts.items }
{
    let mut traveller = walker_of(&ready.run, number)?;
    let mut turns = Vec::new(alloc);
    'turning: for _ in 0..1000 {
        let turn = turn_at_home(alloc, ready, lead, &mut traveller, steps)?;
        turns.push(turn)?;
        if traveller.has_ended() && traveller.question().is_none() {
            return Ok(turns);
        }
    }
    Ok(turns)
}

/// All turns of a walker.
fn turns_by<L: Ledger>(
    alloc: Global,
    ready: &Ready,
    number: u64,
    lead: Lead,
    blank: Blank,
) -> Result<Vec<Turn>, Fail>
    requires suits { All (Suits ready.now.run) ready.now.parts.items }
    requires name { blank.name ≡ L.name }
    requires parts { blank.parts ≡ L.parts }
    requires some { 0 < blank.parts }
{
    let mut steps = Steps::<L>::new(blank);
    if lead == Lead::Lanes {
        for part in &ready.parts {
            return turns_in_lane(alloc, &ready.run, part, number, &mut steps);
        }
    }
    turns_alone(alloc, ready, number, lead, &mut steps)
}

/// The turns of a walk: a move to each vertex behind the first, and the end.
fn turns_of(alloc: Global, walk: &[u32]) -> Result<Vec<Turn>, Fail> {
    let mut turns = Vec::new(alloc);
    for (i, to) in walk.iter().enumerate() {
        if i > 0 {
            turns.push(Turn::Moved { to: *to })?;
        }
    }
    turns.push(Turn::Ended)?;
    Ok(turns)
}

/// Asserts the walk of a walker, led in some ways over the parts between cuts.
fn expect_walk<R: Abort + Threads + Sync + AllocGlobal>(
    rt: &R,
    lines: &[Line],
    case: Case,
    cuts: &Cuts,
    leads: &[Lead],
    number: u64,
    walk: &[u32],
) -> Result<(), Fail> {
    let want = turns_of(rt.alloc(), walk)?;
    let ready = make_ready(rt, lines, case, cuts)?;
    for lead in leads {
        let turns = turns_by::<Brand>(rt.alloc(), &ready, number, *lead, Blank::new(1))?;
        assert!(rt; turns == want, "walker {number}");
    }
    Ok(())
}

/// Asserts that all walks of a case, led in some ways, are those of the definition.
fn expect_plain<R: Abort + Threads + Sync + AllocGlobal>(
    rt: &R,
    lines: &[Line],
    case: Case,
    cuts: &Cuts,
    leads: &[Lead],
) -> Result<(), Fail> {
    let edges = edges_of(rt.alloc(), lines)?;
    let plan = plan_of(rt.alloc(), case)?;
    for number in 0..u64::from(cuts.vertices()) {
        let can = can_walk(rt.alloc(), &edges, &plan, number)?;
        assert!(rt; can);
        let walk = plain_walk(rt.alloc(), &edges, &plan, SEED, number)?;
        expect_walk(rt, lines, case, cuts, leads, number, &walk)?;
    }
    Ok(())
}

/// Every way to lead a walker on one part.
const LEADS: [Lead; 3] = [Lead::Turns, Lead::Halves, Lead::Lanes];

/// A coin that never falls, and one that always does.
const NEVER: (u32, u32) = (0, 1);

const ALWAYS: (u32, u32) = (1, 1);

/// A case in which weights count.
fn case(length: u32, retries: u32, stop: (u32, u32), restart: (u32, u32), choice: Choice) -> Case {
    Case {
        weighted: true,
        length,
        retries,
        stop,
        restart,
        choice,
    }
}

/// A path of three vertices, with edges of two types.
const PATH: [Line; 2] = [(0, 1, 3, 4), (1, 2, 1, 5)];

/// Two vertices with an edge to and one fro, and a third before them.
const SHUTTLE: [Line; 3] = [(0, 1, 1, 4), (1, 0, 1, 5), (2, 0, 1, 4)];

/// Loops, edges side by side, ways back and away, and a vertex without a row.
const TANGLE: [Line; 14] = [
    (0, 1, 5, 0),
    (0, 1, 1, 1),
    (0, 0, 2, 0),
    (0, 2, 9, 1),
    (1, 0, 4, 1),
    (1, 2, 1, 1),
    (1, 3, 7, 0),
    (2, 1, 3, 1),
    (2, 0, 3, 0),
    (2, 3, 8, 0),
    (3, 1, 6, 1),
    (3, 3, 2, 0),
    (3, 0, 4, 1),
    (3, 4, 1, 1),
];

/// Walks on a path: until a row is empty, the length is reached, a coin falls or no factor is above 0, and
/// walks that are back at their starts with each step.
#[test]
fn walks_by_example(rt: HostRuntime) -> Result<(), Fail> {
    let cuts = Cuts::none(rt.alloc(), 3);
    let plain = Choice::Plain;
    let none = Choice::Scheme(9, 9);
    let turns = Choice::Scheme(4, 5);
    let near = Choice::Node2vec((1, 4), (4, 1));
    for (case, number, walk) in [
        (case(10, 32, NEVER, NEVER, plain), 0, [0, 1, 2].as_slice()),
        (case(10, 32, NEVER, NEVER, plain), 2, &[2]),
        (case(1, 32, NEVER, NEVER, plain), 0, &[0, 1]),
        (case(0, 32, NEVER, NEVER, plain), 0, &[0]),
        (case(10, 32, ALWAYS, NEVER, plain), 0, &[0]),
        // the coin of the end comes before that of a restart
        (case(10, 32, ALWAYS, ALWAYS, near), 1, &[1]),
        (case(3, 32, NEVER, ALWAYS, plain), 1, &[1, 1, 1, 1]),
        (case(2, 32, NEVER, ALWAYS, turns), 2, &[2, 2, 2]),
        (case(10, 32, NEVER, NEVER, none), 0, &[0]),
        (case(10, 0, NEVER, NEVER, none), 0, &[0]),
    ] {
        expect_walk(&rt, &PATH, case, &cuts, &LEADS, number, walk)?;
    }
    Ok(())
}

/// Walks to and fro along the only edge of each row, by darts and by the scan.
#[test]
fn walks_along_only_edges(rt: HostRuntime) -> Result<(), Fail> {
    let cuts = Cuts::none(rt.alloc(), 3);
    let plain = Choice::Plain;
    let turns = Choice::Scheme(4, 5);
    let near = Choice::Node2vec((1, 4), (4, 1));
    for (case, number, walk) in [
        (
            case(4, 32, NEVER, NEVER, plain),
            0,
            [0, 1, 0, 1, 0].as_slice(),
        ),
        (case(4, 0, NEVER, NEVER, plain), 1, &[1, 0, 1, 0, 1]),
        (case(4, 32, NEVER, NEVER, turns), 0, &[0, 1, 0, 1, 0]),
        (case(4, 0, NEVER, NEVER, turns), 2, &[2, 0]),
        (case(4, 32, NEVER, NEVER, near), 0, &[0, 1, 0, 1, 0]),
        (case(4, 0, NEVER, NEVER, near), 2, &[2, 0, 1, 0, 1]),
    ] {
        expect_walk(&rt, &SHUTTLE, case, &cuts, &LEADS, number, walk)?;
    }
    Ok(())
}

/// Cases of a rule: with and without weights, by darts and by the scan, and with coins.
fn cases_of(choice: Choice) -> [Case; 6] {
    [
        case(20, 32, NEVER, NEVER, choice),
        case(20, 0, NEVER, NEVER, choice),
        case(20, 1, NEVER, NEVER, choice),
        case(20, 32, NEVER, (1, 3), choice),
        case(20, 32, (1, 10), (1, 4), choice),
        Case {
            weighted: false,
            ..case(20, 32, NEVER, NEVER, choice)
        },
    ]
}

/// Rules that ask about an edge alone.
const LONE_CHOICES: [Choice; 3] = [Choice::Plain, Choice::Scheme(0, 1), Choice::Scheme(1, 1)];

/// Rules that ask about the vertex before, too: nearly each dart does by the second and the third.
const NEAR_CHOICES: [Choice; 4] = [
    Choice::Node2vec((1, 4), (4, 1)),
    Choice::Node2vec((1000, 1), (1, 1000)),
    Choice::Node2vec((1, 1), (1000, 1)),
    Choice::Node2vec((2, 3), (1, 1)),
];

/// Walkers on one part that has all vertices.
#[test]
fn walks_are_those_of_the_definition(rt: HostRuntime) -> Result<(), Fail> {
    let cuts = Cuts::none(rt.alloc(), 5);
    for choice in LONE_CHOICES.iter().chain(&NEAR_CHOICES) {
        for case in cases_of(*choice) {
            expect_plain(&rt, &TANGLE, case, &cuts, &LEADS)?;
        }
    }
    Ok(())
}

/// Walkers that go from part to part, each step on the part that owns the vertex where it begins.
#[test]
fn walks_over_parts_are_those_of_the_definition(rt: HostRuntime) -> Result<(), Fail> {
    for count in [2, 3, 8] {
        let cuts = Cuts::balanced(rt.alloc(), &[1, 1, 1, 1, 1], count)?;
        for choice in LONE_CHOICES {
            for case in cases_of(choice) {
                let leads = [Lead::Turns, Lead::Halves];
                expect_plain(&rt, &TANGLE, case, &cuts, &leads)?;
            }
        }
    }
    Ok(())
}

/// Walkers that ask other parts about the vertex before, and hear their replies.
#[test]
fn walks_with_replies_are_those_of_the_definition(rt: HostRuntime) -> Result<(), Fail> {
    for count in [2, 3] {
        let cuts = Cuts::balanced(rt.alloc(), &[1, 1, 1, 1, 1], count)?;
        for choice in NEAR_CHOICES {
            for case in cases_of(choice) {
                expect_plain(&rt, &TANGLE, case, &cuts, &[Lead::Turns])?;
            }
        }
    }
    Ok(())
}

/// What the choice among the edges from a vertex comes to after a step to it, on the part that owns it.
fn choice_after<L: Ledger>(ready: &Ready, back: u32, at: u32, blank: Blank) -> Result<Mode, Fail>
    requires suits { All (Suits ready.now.run) ready.now.parts.items }
    requires name { blank.name ≡ L.name }
    requires parts { blank.parts ≡ L.parts }
    requires some { 0 < blank.parts }
{
    let mut steps = Steps::<L>::new(blank);
    let plan = &ready.run.plan;
    let factors = rule_factors(&plan.rule);
    let state = State {
        at,
        previous: Some(back),
        phase: 1,
        steps: 1,
        place: 0,
    };
    for part in &ready.parts {
        let within = at < part.vertices() && back < part.vertices();
        if within && part.owner(at) == part.part() {
            let left = plan.retries;
            let mut reader = Streams::new(ready.run.seed).reader(0, 0);
            return Ok(choose_from(part, plan, &factors, left, state, &mut reader, &mut steps));
        }
    }
    Err(Fail::new("a vertex that no part owns"))
}

/// What a choice comes to where the vertex before is another part's: a question about the edge that a dart
/// would take, or about the whole row where a scan needs it.
#[test]
fn choices_after_a_vertex_of_another_part(rt: HostRuntime) -> Result<(), Fail> {
    let alone = Cuts::none(rt.alloc(), 3);
    let apart = Cuts::balanced(rt.alloc(), &[1, 1, 1], 3)?;
    let edge = Question::Edge { t: 0, x: 2 };
    let row = Question::Row { t: 0 };
    let far = Choice::Node2vec((1, 1000), (1000, 1));
    let same = Choice::Node2vec((4, 1), (1, 1));
    let chosen = Mode::Chosen { edge: 0, place: 1 };
    let asked = Mode::Asked {
        left: 4,
        place: 0,
        question: edge,
    };
    let asked_row = Mode::AskedRow {
        place: 0,
        question: row,
    };
    for (cuts, choice, retries, back, at, mode) in [
        // nearly all of the board lies above the factor of an edge that isn't near
        (&apart, far, 5, 0, 1, asked),
        (&apart, far, 0, 0, 1, asked_row),
        (&alone, far, 0, 0, 1, chosen),
        // near edges count as others do
        (&apart, same, 5, 0, 1, chosen),
        (&apart, same, 0, 0, 1, chosen),
        (&apart, far, 5, 1, 2, Mode::Over),
        (&apart, Choice::Plain, 5, 0, 1, chosen),
    ] {
        let case = case(10, retries, NEVER, NEVER, choice);
        let ready = make_ready(&rt, &PATH, case, cuts)?;
        let found = choice_after::<Brand>(&ready, back, at, Blank::new(1))?;
        assert_eq!(rt; found, mode);
    }
    Ok(())
}

/// Copies of runs, and walkers at their starts.
#[test]
fn runs_and_their_walkers(rt: HostRuntime) -> Result<(), Fail> {
    let cuts = Cuts::none(rt.alloc(), 3);
    for choice in LONE_CHOICES.iter().chain(&NEAR_CHOICES) {
        let case = case(10, 32, NEVER, NEVER, *choice);
        let ready = make_ready(&rt, &PATH, case, &cuts)?;
        let run = ready.run.copy(rt.alloc())?;
        assert_eq!(rt; run.seed, SEED);
        assert_eq!(rt; run.plan.length, 10);
        assert_eq!(rt; run.walkers(), 3);
        let walker = walker_of(&run, 2)?;
        assert_eq!(rt; (walker.number(), walker.at(), walker.step()), (2, 2, 0));
        assert_eq!(rt; walker.turn(), Turn::Moved { to: 2 });
        assert!(rt; walker.is_fresh() && !walker.has_ended() && walker.question().is_none());
        assert!(rt; walker.is_within(3) && !walker.is_within(2));
    }
    Ok(())
}
