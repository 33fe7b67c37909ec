//! A file of the system that stays open between reads.

ghost use Rattle.std.specs.Prelude.{◌≤◌, ◌≡◌, length, take, IfOk, IsTrue};

use std::io::{Read, Seek, SeekFrom};
use std::{fs, io};

/// The most bytes of a name. The system opens no longer one.
const LONGEST_NAME: usize = 4096;

/// An open file, its name, and the place behind what was read of it.
#[derive(Drop)]
pub(crate) struct Opened<H: Read + Seek + Drop> {
    handle: H,
    name: [u8; LONGEST_NAME],
    length: usize,
    next: u64,
    ghost named: { length ≤ 4096 },
}

/// Opens a file of the system, at its beginning.
pub(crate) fn open_named<S: std::rt::Files>(system: &S, name: &str) -> io::Result<Opened<S::File>> {
    let bytes = name.as_bytes();
    let length = bytes.len();
    if length > LONGEST_NAME {
        return Err(io::Error::from(io::ErrorKind::InvalidFilename));
    }
    let handle = fs::open(system, name)?;
    let mut kept = [0; LONGEST_NAME];
    kept[..length].copy_from_slice(bytes);
    Ok(Opened {
        handle,
        name: kept,
        length,
        next: 0,
    })
}

impl<H: Read + Seek + Drop> Opened<H> {
    /// Whether this is the file of a name.
    pub(crate) fn is_named(&self, name: &str) -> bool {
        &self.name[..self.length] == name.as_bytes()
    }

    /// Reads bytes at a place. At the place behind the last read it reads on, so that a pipe is read
    /// in order; at any other place it seeks, which a pipe refuses.
    pub(crate) fn read_at(&mut self, place: u64, buf: &mut [u8]) -> io::Result<usize>
        ensures { IfOk result (λ k. k ≤ length buf.new) }
    {
        if place != self.next {
            self.handle.seek(SeekFrom::Start(place))?;
            self.next = place;
        }
        let count = self.handle.read(buf)?;
        self.next = place.saturating_add(count as u64);
        Ok(count)
    }
}
