//! Lines of a text, and fields of a line, by their places.

ghost use Rattle.std.specs.Prelude.{◌≡◌, ◌≢◌, ◌<◌, ◌≤◌, ◌∷◌, [], ℕ, false, length, drop, slice_index, slice_range, IfSome, IfNone};
ghost use Rattle.edge_reader.specs.Lines.{is_blank, without_return, fields};
ghost use Rattle.edge_reader.specs.Unfinished.{stretch, beyond};

/// Whether a byte is a space or a tab.
fn is_blank_byte(b: u8) -> bool
    ensures { result ≡ is_blank b }
{
    b == b' ' || b == b'\t'
}

/// The place of the first line feed from a place on, or the end of the text.
pub(crate) fn line_end(text: &[u8], from: usize) -> usize
    requires { from ≤ length text.now }
    ensures onward { from ≤ result }
    ensures within { result ≤ length text.now }
    ensures feed { result < length text.now → slice_index text.now result ≡ 10 }
    ensures before { (k : ℕ) → from ≤ k → k < result → slice_index text.now k ≢ 10 }
{
    let mut at = from;
    'bytes: while at < text.len() {
        if text[at] == b'\n' {
            return at;
        }
        at += 1;
    }
    at
}

/// A line without one carriage return at its end.
pub(crate) fn trimmed(line: &[u8]) -> &[u8]
    ensures { result.now ≡ without_return line.now }
{
    let count = line.len();
    if count > 0 && line[count - 1] == b'\r' {
        return &line[..count - 1];
    }
    line
}

/// The place of the first byte from a place on that is no blank, or the end of the line.
fn gap_end(line: &[u8], from: usize) -> usize
    requires { from ≤ length line.now }
    ensures within { result ≤ length line.now }
    ensures fields { fields (drop from line.now) ≡ fields (drop result line.now) }
    ensures solid { result < length line.now → is_blank (slice_index line.now result) ≡ false }
{
    let mut at = from;
    'blanks: while at < line.len() {
        if !is_blank_byte(line[at]) {
            return at;
        }
        at += 1;
    }
    at
}

/// The place of the first blank from a place on, or the end of the line.
fn stretch_end(line: &[u8], from: usize) -> usize
    requires { from ≤ length line.now }
    ensures onward { from ≤ result }
    ensures within { result ≤ length line.now }
    ensures field { stretch (drop from line.now) ≡ slice_range line.now from result }
    ensures rest { beyond (drop from line.now) ≡ drop result line.now }
{
    let mut at = from;
    'solid: while at < line.len() {
        if is_blank_byte(line[at]) {
            return at;
        }
        at += 1;
    }
    at
}

/// Where the first field from a place on begins and ends, if there is one.
pub(crate) fn next_field(line: &[u8], from: usize) -> Option<(usize, usize)>
    requires { from ≤ length line.now }
    ensures within { IfSome result (λ f. (f.0 ≤ f.1) × (f.1 ≤ length line.now)) }
    ensures field { IfSome result (λ f. fields (drop from line.now) ≡ slice_range line.now f.0 f.1 ∷ fields (drop f.1 line.now)) }
    ensures none { IfNone result (fields (drop from line.now) ≡ []) }
{
    let begin = gap_end(line, from);
    if begin == line.len() {
        return None;
    }
    Some((begin, stretch_end(line, begin + 1)))
}
