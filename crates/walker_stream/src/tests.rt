use super::*;
use std::process::Abort;
use std::test::Fail;
use walk_model::Fraction;

#[test]
fn folds(rt: HostRuntime) -> Result<(), Fail> {
    assert_eq!(rt; fold(18446744073709551615, 3), None);
    assert_eq!(rt; fold(18446744073709551614, 3), Some(2));
    for word in [0, 1, 9223372036854775808, 18446744073709551615] {
        assert_eq!(rt; fold(word, 1), Some(0));
    }
    Ok(())
}

#[test]
fn a_draw_of_one(rt: HostRuntime) -> Result<(), Fail> {
    let streams = Streams::new(7);
    for (walker, place) in [(0, 0), (5, 40), (18446744073709551615, 9223372036854775808)] {
        assert_eq!(rt; streams.draw(1, walker, place), (0, place + 1));
    }
    Ok(())
}

#[test]
fn a_reader_goes_along(rt: HostRuntime) -> Result<(), Fail> {
    let streams = Streams::new(7);
    let mut reader = streams.reader(5, 30);
    for place in 30..70u64 {
        assert_eq!(rt; reader.seed(), 7);
        assert_eq!(rt; reader.walker(), 5);
        let stands = reader.place();
        assert_eq!(rt; stands, place);
        if stands < 70 {
            assert_eq!(rt; reader.peek(), streams.word(5, place));
            assert_eq!(rt; reader.next(), streams.word(5, place));
        }
    }
    for (walker, place) in [(5, 66), (6, 66), (6, 3)] {
        reader.seek(walker, place);
        assert_eq!(rt;
            (reader.draw(1000003), reader.place()),
            streams.draw(1000003, walker, place)
        );
    }
    Ok(())
}

#[test]
fn coins(rt: HostRuntime) -> Result<(), Fail> {
    let streams = Streams::new(7);
    let mut reader = streams.reader(5, 30);
    assert_eq!(rt;
        (reader.coin(Fraction::never()), reader.place()),
        (false, 30)
    );
    assert_eq!(rt;
        (reader.coin(Fraction::of(3, 3)), reader.place()),
        (true, 31)
    );
    // no word of these is among the few that have no fold
    let third = Fraction::of(1, 3);
    for place in 31..51u64 {
        reader.seek(5, place);
        assert_eq!(rt; reader.coin(third), streams.word(5, place) % 3 == 0);
    }
    Ok(())
}

#[test]
fn a_reader_follows(rt: HostRuntime) -> Result<(), Fail> {
    let mut reader = Streams::new(7).reader(5, 30);
    for (seed, walker, place) in [(7, 5, 31), (7, 6, 31), (8, 6, 31), (8, 6, 2), (7, 5, 30)] {
        reader.follow(seed, walker, place);
        assert_eq!(rt;
            (reader.seed(), reader.walker(), reader.place()),
            (seed, walker, place)
        );
        assert_eq!(rt; reader.next(), Streams::new(seed).word(walker, place));
    }
    Ok(())
}

/// Reads some words of a reader, which must be those of a stream from a place on.
fn expect_words<R: Abort>(
    rt: &R,
    reader: &mut StreamReader,
    seed: u64,
    walker: u64,
    place: u64,
    count: u64,
) {
    let streams = Streams::new(seed);
    for k in 0..count {
        let stands = reader.place();
        assert!(rt; stands < 1_000_000 && place < 1_000_000 && k < 1_000_000);
        assert_eq!(rt;
            (reader.seed(), reader.walker(), stands),
            (seed, walker, place + k)
        );
        assert_eq!(rt; reader.next(), streams.word(walker, place + k));
    }
}

/// Words that one reader packs after some, and another takes up: until they are read, just after, and past a
/// refill. The first place is inside a block of the generator, at its border, and at the start of the stream.
#[test]
fn words_that_are_carried(rt: HostRuntime) -> Result<(), Fail> {
    for (seed, walker, place) in [
        (7, 5, 30),
        (7, 6, 32),
        (0, 0, 0),
        (18446744073709551615, 1, 7),
    ] {
        for read in [0, 1, 7, 8, 9, 23, 24, 25, 31, 32, 33] {
            let mut first = Streams::new(seed).reader(walker, place);
            expect_words(&rt, &mut first, seed, walker, place, read);
            let carried = first.pack();
            assert_eq!(rt; carried.walker(), walker);
            // one that has read words of another stream, or of another seed
            for other in [seed, 9] {
                for count in [7, 8, 9, 50] {
                    let mut second = Streams::new(other).reader(walker ^ 1, place);
                    let _before = (second.next(), second.next());
                    second.take_up(&carried);
                    expect_words(&rt, &mut second, seed, walker, place + read, count);
                }
            }
            expect_words(&rt, &mut carried.reader(), seed, walker, place + read, 10);
            expect_words(&rt, &mut first, seed, walker, place + read, 10);
        }
    }
    Ok(())
}

/// Carried words are packed once more after some of them, and moved among.
#[test]
fn words_that_are_carried_on(rt: HostRuntime) -> Result<(), Fail> {
    let mut reader = Streams::new(7).reader(5, 3);
    for hop in 0..30u64 {
        expect_words(&rt, &mut reader, 7, 5, 3 + hop, 1);
        let carried = reader.pack();
        reader.seek(hop, 40);
        let _other = reader.next();
        reader.take_up(&carried);
    }
    for place in [34, 33, 35, 40, 32, 5, 60, 61, 29] {
        reader.seek(5, place);
        expect_words(&rt, &mut reader, 7, 5, place, 2);
    }
    let mut none = CarriedWords::none(7, 5, 29).reader();
    expect_words(&rt, &mut none, 7, 5, 29, 40);
    Ok(())
}
