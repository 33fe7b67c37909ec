use super::*;
use std::fs;
use std::io::{BufWriter, Write, pipe};
use std::os::fd::AsRawFd;
use std::test::Fail;

/// What a read of at most eight bytes gives.
fn piece_of<F: Files>(files: &mut F, name: &str, place: u64) -> Result<(usize, [u8; 8]), Failed> {
    let mut buffer = [0u8; 8];
    match files.read_at(name, place, &mut buffer) {
        Ok(count) => Ok((count, buffer)),
        Err(failed) => Err(failed),
    }
}

#[test]
fn real_files_are_read(rt: HostRuntime) -> Result<(), Fail> {
    fs::write(&rt, "walk_io_real.txt", "0 1\n1 2\n2 0\n")?;
    let input = b"5 9\n".as_slice();
    let mut files = RealFiles::new(&rt, input);
    let name = "walk_io_real.txt";
    assert_eq!(rt; piece_of(&mut files, name, 0), Ok((8, *b"0 1\n1 2\n")));
    assert_eq!(rt; piece_of(&mut files, name, 8), Ok((4, *b"2 0\n\0\0\0\0")));
    assert_eq!(rt; piece_of(&mut files, name, 12), Ok((0, [0; 8])));
    assert_eq!(rt; files.read_at("missing.txt", 0, &mut []), Ok(0));
    assert_eq!(rt; piece_of(&mut files, "missing.txt", 0), Err(Failed));
    // standard input is read in order, and no other place of it
    assert_eq!(rt; piece_of(&mut files, "-", 0), Ok((4, *b"5 9\n\0\0\0\0")));
    assert_eq!(rt; piece_of(&mut files, "-", 0), Err(Failed));
    assert_eq!(rt; piece_of(&mut files, "-", 4), Ok((0, [0; 8])));
    fs::remove_file(&rt, name)?;
    assert_eq!(rt; piece_of(&mut files, name, 0), Err(Failed));
    Ok(())
}

#[test]
fn a_pipe_with_a_name_is_read_in_order(rt: HostRuntime) -> Result<(), Fail> {
    let alloc = rt.alloc();
    let (reader, mut writer) = pipe(&rt)?;
    writer.write(b"0 1\n1 2\n2 0\n")?;
    let name = format!(in alloc; "/dev/fd/{}", reader.as_raw_fd())?;
    let mut files = RealFiles::new(&rt, b"".as_slice());
    // bytes as from a file: it is opened once, and each read goes on behind the one before
    assert_eq!(rt; piece_of(&mut files, &name, 0), Ok((8, *b"0 1\n1 2\n")));
    assert_eq!(rt; piece_of(&mut files, &name, 4), Err(Failed));
    assert_eq!(rt; piece_of(&mut files, &name, 8), Ok((4, *b"2 0\n\0\0\0\0")));
    drop(writer);
    assert_eq!(rt; piece_of(&mut files, &name, 12), Ok((0, [0; 8])));
    Ok(())
}

#[test]
fn a_write_is_flushed(rt: HostRuntime) -> Result<(), Fail> {
    let name = "walk_io_flushed.txt";
    let writer = BufWriter::new(rt.alloc(), fs::create(&rt, name)?)?;
    let mut sink = RealSink::new(writer);
    // the bytes have left the writer's buffer when the call says so
    assert_eq!(rt; sink.write(b"0 1\n"), Ok(4));
    assert_eq!(rt; fs::read_to_string(&rt, name)?.as_str(), "0 1\n");
    assert_eq!(rt; sink.write(b"1 2\n"), Ok(4));
    assert_eq!(rt; fs::read_to_string(&rt, name)?.as_str(), "0 1\n1 2\n");
    fs::remove_file(&rt, name)?;
    Ok(())
}

#[test]
fn real_sinks_are_written(rt: HostRuntime) -> Result<(), Fail> {
    let mut room = [0u8; 6];
    let mut sink = RealSink::new(room.as_mut_slice());
    assert_eq!(rt; sink.write(b""), Ok(0));
    assert_eq!(rt; sink.write(b"0 1\n"), Ok(4));
    // the writer takes what it has room for, and then nothing, which is a failure
    assert_eq!(rt; sink.write(b"1 2\n"), Ok(2));
    assert_eq!(rt; sink.write(b"\n"), Err(Failed));
    let RealSink { .. } = sink;
    assert_eq!(rt; room, *b"0 1\n1 ");
    Ok(())
}

#[test]
fn memory_files_count_their_faults(rt: HostRuntime) -> Result<(), Fail> {
    let alloc = rt.alloc();
    let entry = NamedBytes {
        name: String::from_str(alloc, "g")?,
        bytes: Vec::from_slice(alloc, b"0 1\n1 2\n")?,
        faults: 0,
    };
    let mut files = MemoryFiles {
        names: vec![in alloc; entry]?,
        fails: vec![in alloc; 2, 5]?,
        most: 5,
        calls: 0,
        faults: u64::MAX,
    };
    assert_eq!(rt; piece_of(&mut files, "g", 4), Ok((4, *b"1 2\n\0\0\0\0")));
    assert_eq!(rt; piece_of(&mut files, "g", 0), Err(Failed));
    assert_eq!(rt; files.read_at("g", 0, &mut []), Ok(0));
    assert_eq!(rt; piece_of(&mut files, "g", 0), Ok((5, *b"0 1\n1\0\0\0")));
    assert_eq!(rt; piece_of(&mut files, "h", 0), Err(Failed));
    assert_eq!(rt; piece_of(&mut files, "g", 9), Err(Failed));
    assert_eq!(rt; piece_of(&mut files, "g", 9), Ok((0, [0; 8])));
    assert_eq!(rt; files.calls, 6);
    assert_eq!(rt; files.faults, u64::MAX);
    assert_eq!(rt; files.names.first().map_or(0, |e| e.faults), 2);
    let mut sure = SureFiles { names: files.names };
    assert_eq!(rt; piece_of(&mut sure, "g", 0), Ok((8, *b"0 1\n1 2\n")));
    assert_eq!(rt; piece_of(&mut sure, "h", 0), Ok((0, [0; 8])));
    Ok(())
}

#[test]
fn memory_sinks_have_room(rt: HostRuntime) -> Result<(), Fail> {
    let alloc = rt.alloc();
    let mut sink = MemorySink::new(alloc, 4, vec![in alloc; 2]?, 3)?;
    for (piece, answer) in [
        (b"0 1\n".as_slice(), Ok(3)),
        (b"\n".as_slice(), Err(Failed)),
        (b"".as_slice(), Ok(0)),
        (b"\n1".as_slice(), Ok(1)),
        (b"1".as_slice(), Err(Failed)),
    ] {
        assert_eq!(rt; sink.write(piece), answer);
    }
    assert_eq!(rt; sink.bytes.as_slice(), b"0 1\n".as_slice());
    assert_eq!(rt; (sink.calls, sink.faults), (4, 2));
    assert_eq!(rt; SureSink.write(b"0 1\n"), Ok(4));
    Ok(())
}
