ghost use Rattle.std.specs.Prelude.{◌≡◌, ◌<◌, ◌≤◌, length, IfOk};

use super::*;
use std::alloc::Global;
use std::test::Fail;
use walk_model::{Letter, Memory, What};

/// An item with a name, whose letter is a move of the walker of that name.
#[derive(Debug, Drop)]
struct Note {
    name: u8,
    to: u32,
}

impl Mail for Note {
    ghost use Rattle.walk_model.specs.declared.messages.What.TheVariants.{Move};

    ghost description = { λ n. record { walker = n.name; step = 1; from = 0; to = n.to; what = Move } };

    fn letter(&self) -> Letter {
        Letter {
            walker: u64::from(self.name),
            step: 1,
            from: 0,
            to: self.to,
            what: What::Move,
        }
    }
}

/// A parcel from part 0 with an item of each name.
fn parcel(alloc: Global, to: u32, names: &[u8]) -> Result<Parcel<Note>, Memory>
    ensures { IfOk result (λ p. length p.items.items ≡ length names.now) }
{
    let mut items = Vec::new(alloc);
    for name in names {
        items.push(Note { name: *name, to })?;
    }
    Ok(Parcel { from: 0, to, items })
}

/// The names of the items of parcels, in order.
fn names_of(alloc: Global, parcels: &[Parcel<Note>]) -> Result<Vec<u8>, Memory> {
    let mut names = Vec::new(alloc);
    for parcel in parcels {
        for note in &parcel.items {
            names.push(note.name)?;
        }
    }
    Ok(names)
}

/// What the hand-overs of a carrier give until one gives nothing, each between bars, once `a` and `b` and then `c` were
/// posted.
fn hand_overs<C: Carrier<Note>>(alloc: Global, carrier: &mut C) -> Result<Vec<u8>, Memory>
    requires { C.carried carrier.old < 1000 }
{
    let first = Vec::from_array(alloc, [parcel(alloc, 1, b"ab")?])?;
    carrier.post(first)?;
    let second = Vec::from_array(alloc, [parcel(alloc, 2, b"c")?])?;
    carrier.post(second)?;
    let mut text = Vec::new(alloc);
    for _ in 0..5 {
        let given = carrier.hand_over(alloc)?;
        text.append(&mut names_of(alloc, &given)?)?;
        text.push(b'|')?;
    }
    Ok(text)
}

#[test]
fn carriers_hand_over(rt: HostRuntime) -> Result<(), Fail> {
    let alloc = rt.alloc();
    assert_eq!(rt;
        hand_overs(alloc, &mut InOrder::new(alloc))?.as_slice(),
        b"abc|||||".as_slice()
    );
    assert_eq!(rt;
        hand_overs(alloc, &mut Reversed::new(alloc))?.as_slice(),
        b"cba|||||".as_slice()
    );
    assert_eq!(rt;
        hand_overs(alloc, &mut OneByOne::new(alloc))?.as_slice(),
        b"a|b|c|||".as_slice()
    );
    // 1 mod 3 is 1; then 6364136223846793006 mod 2 is 0
    assert_eq!(rt;
        hand_overs(alloc, &mut Shuffled::new(alloc, 1))?.as_slice(),
        b"b|a|c|||".as_slice()
    );
    let mut recording = Recording::new(alloc, InOrder::new(alloc));
    assert_eq!(rt;
        hand_overs(alloc, &mut recording)?.as_slice(),
        b"abc|||||".as_slice()
    );
    let [a, b, c] = [(b'a', 1), (b'b', 1), (b'c', 2)].map(|(name, to)| Note { name, to }.letter());
    assert_eq!(rt; recording.letters(), [a, b, c].as_slice());
    NoGate.enter(0, 1);
    Ok(())
}

/// Whether the items of these names and addressees are packed, from part 7, into parcels to these addressees with these
/// names.
fn pack_gives(
    alloc: Global,
    items: &[(u8, u32)],
    limit: u32,
    want: &[(u32, &[u8])],
) -> Result<bool, Memory>
    requires { 1 ≤ limit }
{
    let mut addressed = Vec::new(alloc);
    for (name, to) in items {
        let item = Note {
            name: *name,
            to: *to,
        };
        addressed.push(Addressed { to: *to, item })?;
    }
    let parcels = pack(alloc, 7, addressed, limit)?;
    let mut same = parcels.len() == want.len();
    for (parcel, (to, names)) in parcels.iter().zip(want.iter()) {
        same = same && parcel.from == 7 && parcel.to == *to;
        for (note, name) in parcel.items.iter().zip(names.iter()) {
            same = same && note.name == *name;
        }
        same = same && parcel.items.len() == names.len();
    }
    Ok(same)
}

#[test]
fn items_are_packed(rt: HostRuntime) -> Result<(), Fail> {
    let alloc = rt.alloc();
    let three = [(b'a', 2), (b'b', 1), (b'c', 2)];
    let none: [(u8, u32); 0] = [];
    assert!(rt; pack_gives(alloc, &none, 1, &[])?);
    assert!(rt; pack_gives(alloc, &[(b'a', 3)], 256, &[(3, b"a")])?);
    assert!(rt; pack_gives(alloc, &three, 1, &[(1, b"b"), (2, b"a"), (2, b"c")])?);
    // a limit that is exactly met, and one that is passed
    assert!(rt; pack_gives(alloc, &three, 2, &[(1, b"b"), (2, b"ac")])?);
    let more = [(b'a', 0), (b'b', 0), (b'c', 0), (b'd', 0), (b'e', 0)];
    assert!(rt; pack_gives(alloc, &more, 2, &[(0, b"ab"), (0, b"cd"), (0, b"e")])?);
    let many = [
        (b'a', u32::MAX),
        (b'b', 0),
        (b'c', 5),
        (b'd', u32::MAX),
        (b'e', 4),
        (b'f', 0),
        (b'g', 0),
    ];
    assert!(rt;
        pack_gives(
            alloc,
            &many,
            2,
            &[
                (0, b"bf"),
                (0, b"g"),
                (4, b"e"),
                (5, b"c"),
                (u32::MAX, b"ad")
            ]
        )?
    );
    Ok(())
}
