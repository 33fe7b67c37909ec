//! Texts of files that are read whole.

ghost use Rattle.std.specs.Prelude.{◌≡◌, ◌≤◌, ◌<◌, ◌^◌, ℕ, List, length, IfOk, IfErr};
ghost use Rattle.walk_io.specs.Files.{IfRead};
ghost use Rattle.walk_top.specs.TextFaults.{IsTextFault};

use std::alloc::Global;
use walk_io::Files;

/// Why there is no text of a file: it can't be read, it is too long, or there was no memory.
#[derive(Clone, Copy, Debug, PartialEq, Eq)]
pub(crate) enum TextFault {
    Read,
    TooLong,
    Memory,
}

/// The text of a file, of so many bytes at most, which is read from its beginning.
pub(crate) fn read_text<F: Files>(
    alloc: Global,
    files: &mut F,
    name: &str,
    most: usize,
) -> Result<Vec<u8>, TextFault>
    requires { most < 2 ^ 62 }
    ensures text { IfOk result (λ v. IfRead (F.told files.old name.now) (λ all. all ≡ v.items)) }
    ensures short { IfOk result (λ v. length v.items ≤ most) }
    ensures fault { IfErr result (IsTextFault most (F.told files.old name.now) (F.faults files.old name.now) (F.faults files.new name.now)) }
    ensures kept { (n : List ℕ) → F.told files.new n ≡ F.told files.old n }
    ensures later { (n : List ℕ) → F.faults files.old n ≤ F.faults files.new n }
{
    let mut text = Vec::new(alloc);
    let mut buffer = [0u8; 65536];
    'reading: loop {
        let count = match files.read_at(name, text.len() as u64, &mut buffer) {
            Ok(0) => break 'reading,
            Ok(count) => count,
            Err(_) => return Err(TextFault::Read),
        };
        if count > most - text.len() {
            return Err(TextFault::TooLong);
        }
        match text.extend_from_slice(&buffer[..count]) {
            Ok(()) => {}
            Err(_) => return Err(TextFault::Memory),
        }
    }
    Ok(text)
}
