//! Walks over several parts: the same bytes by any carrier, and what goes between the parts.

ghost use Rattle.std.specs.Prelude.{◌≡◌, ◌≤◌, ◌<◌, ◌+◌, ◌^◌, [], ◌++◌, length, IfOk, OnOk};
ghost use Rattle.std.specs.List.Sorted.{IsPermutation};
ghost use Rattle.walker_mail.specs.Posts.{all_items, letters_of};
ghost use Rattle.world_law.specs.Items.{letter_of};
ghost use Rattle.shard_core.specs.Items.{item_of};

use crate::carried_tests::{expect_carried, expect_over, expect_plain_carried, letters_of_each};
use crate::tests::{CYCLE, WALKS};
use crate::walk_tests::{PATH, PLANS, TANGLE, WHEEL, shortened, woven};
use shard_core::Item;
use std::alloc::Global;
use std::process::Abort;
use std::test::Fail;
use std::thread::Threads;
use walk_model::{Letter, Memory, What};
use walker_mail::{Carrier, InOrder, Parcel, Recording};

#[test]
fn parts_change_no_byte(rt: HostRuntime) -> Result<(), Fail> {
    let star = "0 1\n0 2\n0 3\n1 0\n2 0\n3 0\n";
    let typed = "0 1 1 4\n1 2 1 5\n2 0 1 4\n";
    for (graph, lines, out) in [
        (CYCLE, "length = 3", WALKS),
        (CYCLE, "length = 3; retries = 0; p = '1/2'; q = '2'", WALKS),
        (CYCLE, "length = 3; p = '1/2'; q = '2'", WALKS),
        (CYCLE, "length = 3; scheme = [4]; retries = 5", "0\n1\n2\n"),
        (typed, "length = 3; scheme = [4, 5]", "0 1 2 0\n1\n2 0\n"),
        (
            "5 9\n",
            "length = 3; walkers = 1; from = 9; restart = '1/1'",
            "9 9 9 9\n",
        ),
        (
            "5 9\n",
            "length = 3; walkers = 1; from = 9; restart = '1/1'; stop = '1/1'",
            "9\n",
        ),
        (star, "length = 0", "0\n1\n2\n3\n"),
    ] {
        for parts in [1, 2, 3, 8] {
            expect_carried(&rt, graph, lines, parts, &[], out)?;
        }
    }
    Ok(())
}

#[test]
fn walks_over_parts_are_those_of_the_definition(rt: HostRuntime) -> Result<(), Fail> {
    let alloc = rt.alloc();
    let woven = woven(alloc)?;
    for programme in PLANS {
        expect_plain_carried(&rt, &TANGLE, programme, &[2, 5], &[])?;
        expect_plain_carried(&rt, &WHEEL, programme, &[2, 5], &[])?;
        let short = shortened(alloc, programme, 5)?;
        for lines in [TANGLE.as_slice(), WHEEL.as_slice(), woven.as_slice()] {
            expect_plain_carried(&rt, lines, short.as_str(), &[1, 2, 3, 5, 40], &[])?;
        }
    }
    let to_and_fro = "length = 12; undirected = true; p = '0.25'; q = '4'";
    expect_plain_carried(&rt, &PATH[..3], to_and_fro, &[1, 2, 4], &[])?;
    Ok(())
}

/// Asserts the letters of walker 0 on the cycle in three parts, and how many there are of all three walkers, by any workers.
fn expect_letters<R: Abort + Threads + Sync + AllocGlobal>(
    rt: &R,
    lines: &str,
    want: &[(u32, u32, u32, What)],
) -> Result<(), Memory> {
    for workers in [1, 2, 5] {
        let letters = letters_of_each(rt, CYCLE, lines, (3, workers), WALKS)?;
        assert_eq!(rt; letters.len(), 3 * want.len());
        for (letter, (step, from, to, what)) in letters.iter().zip(want.iter()) {
            let its = Letter {
                walker: 0,
                step: *step,
                from: *from,
                to: *to,
                what: *what,
            };
            assert!(rt; *letter == its);
        }
    }
    Ok(())
}

#[test]
fn letters_of_walkers(rt: HostRuntime) -> Result<(), Fail> {
    let moves = [
        (1, 0, 1, What::Move),
        (2, 1, 2, What::Move),
        (3, 2, 0, What::Move),
    ];
    expect_letters(&rt, "length = 3", &moves)?;
    let rows_asked_for = [
        (1, 0, 1, What::Move),
        (2, 1, 0, What::AskRow { t: 0 }),
        (2, 0, 1, What::ReplyRow { t: 0 }),
        (2, 1, 2, What::Move),
        (3, 2, 1, What::AskRow { t: 1 }),
        (3, 1, 2, What::ReplyRow { t: 1 }),
        (3, 2, 0, What::Move),
    ];
    let by_scans = "length = 3; retries = 0; p = '1/2'; q = '2'";
    expect_letters(&rt, by_scans, &rows_asked_for)?;
    Ok(())
}

/// A carrier that notes how long its log is at each hand-over by which an item is handed over.
#[derive(Drop)]
struct Noting {
    inner: Recording<Item, InOrder<Item>>,
    lengths: Vec<u64>,
}

impl Carrier<Item> for Noting {
    ghost use Rattle.std.specs.Prelude.{Some};

    ghost held = { λ n. n.inner.inner.held };

    ghost carried = { λ n. n.inner.inner.carried };

    ghost log = { λ n. Some n.inner.letters };

    fn post(&mut self, parcels: Vec<Parcel<Item>>) -> Result<(), Memory>
        requires { self.old.inner.inner.carried + length (all_items parcels.items) < 2 ^ 64 }
        ensures besides { OnOk result (IsPermutation (self.old.inner.inner.held ++ all_items parcels.items) self.new.inner.inner.held) }
        ensures counted { OnOk result (self.new.inner.inner.carried ≡ self.old.inner.inner.carried + length (all_items parcels.items)) }
        ensures letters { OnOk result (self.new.inner.letters ≡ self.old.inner.letters ++ letters_of (λ i. letter_of (item_of i)) (all_items parcels.items)) }
    {
        self.inner.post(parcels)
    }

    fn hand_over(&mut self, alloc: Global) -> Result<Vec<Parcel<Item>>, Memory>
        ensures rearranged { IfOk result (λ ps. IsPermutation self.old.inner.inner.held (all_items ps.items ++ self.new.inner.inner.held)) }
        ensures some { IfOk result (λ ps. 0 < length self.old.inner.inner.held → 0 < length (all_items ps.items)) }
        ensures count { OnOk result (self.new.inner.inner.carried ≡ self.old.inner.inner.carried) }
        ensures kept { OnOk result (self.new.inner.letters ≡ self.old.inner.letters) }
    {
        let parcels = self.inner.hand_over(alloc)?;
        if parcels.len() > 0 {
            self.lengths.push(self.inner.letters().len() as u64)?;
        }
        Ok(parcels)
    }
}

/// Letters are posted superstep by superstep, and not when all walks have ended.
#[test]
fn letters_are_posted_as_walks_go(rt: HostRuntime) -> Result<(), Fail> {
    let alloc = rt.alloc();
    let mut carrier = Noting {
        inner: Recording::new(alloc, InOrder::new(alloc)),
        lengths: Vec::new(alloc),
    };
    let lines = "length = 3; retries = 0; p = '1/2'; q = '2'";
    expect_over(&rt, CYCLE, lines, (3, 1), WALKS, &mut carrier)?;
    assert_eq!(rt;
        carrier.lengths.as_slice(),
        [3u64, 6, 9, 12, 15, 18, 21].as_slice()
    );
    Ok(())
}
