//! A line that hasn't ended, read by bytes and by numbers.

ghost use Rattle.std.specs.Prelude.{◌≡◌, ◌≢◌, ◌<◌, ◌≤◌, ◌∷◌, ◌++◌, [], List, ℕ, Bool, true, false, length, drop, slice_index};
ghost use Rattle.std.specs.Char.{is_ascii_digit};
ghost use Rattle.edge_reader.specs.Lines.{is_blank, is_sign, lines_in};
ghost use Rattle.edge_reader.specs.GraphFile.{line_edge};
ghost use Rattle.edge_reader.specs.Unfinished.{from_place, line_with};
ghost use Rattle.edge_reader.specs.Taken.{lines_with};

use crate::gathered::Gathered;
use crate::numbers::Digits;
use walk_model::{Edge, Why};

/// A number below this isn't too great with one digit more.
const SMALL: u64 = 429496729;

/// Where in a line a reader stands.
#[derive(Clone, Copy)]
pub(crate) enum Place {
    /// Between fields, or in front of the first.
    Gap,
    /// In a field.
    Field,
    /// In a comment.
    Comment,
}

/// What is known of a line so far.
#[derive(Clone, Copy)]
pub(crate) struct Line {
    place: Place,
    /// Whether the last byte is a carriage return, which is kept back, since it may be the line's last.
    returned: bool,
    /// The field in which the reader stands.
    digits: Digits,
    /// The fields in front of it.
    fields: Gathered,
}

/// Whether a byte is a space or a tab.
#[inline]
fn is_blank_byte(b: u8) -> bool
    ensures { result ≡ is_blank b }
{
    b == b' ' || b == b'\t'
}

/// Whether a byte begins a comment.
#[inline]
fn is_sign_byte(b: u8) -> bool
    ensures { result ≡ is_sign b }
{
    b == b'#' || b == b'%'
}

/// Takes one byte more in a gap.
#[inline]
fn take_in_gap(line: &mut Line, b: u8)
    ensures returned { line.new.returned ≡ line.old.returned }
    ensures goes_on { (rest : List ℕ) → from_place line.new.place line.new.fields line.new.digits rest ≡ from_place Place.Gap line.old.fields line.old.digits (b ∷ rest) }
{
    if is_blank_byte(b) {
        line.place = Place::Gap;
        return;
    }
    if is_sign_byte(b) && line.fields.is_empty() {
        line.place = Place::Comment;
        return;
    }
    line.place = Place::Field;
    line.digits = Digits::none().and(b);
}

/// Takes one byte more in a field.
#[inline]
fn take_in_field(line: &mut Line, b: u8)
    ensures returned { line.new.returned ≡ line.old.returned }
    ensures goes_on { (rest : List ℕ) → from_place line.new.place line.new.fields line.new.digits rest ≡ from_place Place.Field line.old.fields line.old.digits (b ∷ rest) }
{
    if is_blank_byte(b) {
        line.place = Place::Gap;
        line.fields.add(line.digits);
        return;
    }
    line.place = Place::Field;
    line.digits = line.digits.and(b);
}

/// Takes one byte more that isn't kept back.
#[inline]
fn take_solid(line: &mut Line, b: u8)
    ensures returned { line.new.returned ≡ line.old.returned }
    ensures goes_on { (rest : List ℕ) → from_place line.new.place line.new.fields line.new.digits rest ≡ from_place line.old.place line.old.fields line.old.digits (b ∷ rest) }
{
    match line.place {
        Place::Gap => take_in_gap(line, b),
        Place::Field => take_in_field(line, b),
        Place::Comment => {}
    }
}

/// Takes a carriage return that was kept back, where it isn't the line's last byte.
#[inline]
fn give_back(line: &mut Line)
    ensures returned { line.new.returned ≡ false }
    ensures goes_on { (b : ℕ) (rest : List ℕ) → line_with line.new (b ∷ rest) ≡ line_with line.old (b ∷ rest) }
{
    if line.returned {
        line.returned = false;
        take_solid(line, b'\r');
    }
}

impl Line {
    /// A line without bytes.
    #[inline]
    pub(crate) fn start() -> Line
        ensures { (line : List ℕ) → line_with result line ≡ line_edge line }
    {
        Line {
            place: Place::Gap,
            returned: false,
            digits: Digits::none(),
            fields: Gathered::none(),
        }
    }

    /// Takes one byte more.
    #[inline]
    pub(crate) fn take(&mut self, b: u8)
        ensures { (rest : List ℕ) → line_with self.new rest ≡ line_with self.old (b ∷ rest) }
    {
        give_back(self);
        if b == b'\r' {
            self.returned = true;
            return;
        }
        take_solid(self, b);
    }

    /// Takes the number that begins at a place of a text, as far as it is small, and a blank after it. Answers the
    /// place after what is taken.
    #[inline]
    fn take_number(&mut self, piece: &[u8], at: usize) -> usize
        requires gap { self.old.place ≡ Place.Gap }
        requires plain { self.old.returned ≡ false }
        requires within { at < length piece.now }
        requires digit { is_ascii_digit (slice_index piece.now at) ≡ true }
        ensures onward { at < result }
        ensures within { result ≤ length piece.now }
        ensures taken { (undirected : Bool) (number room : ℕ) (whole : Bool) (text : List ℕ) →
            lines_with undirected number room self.old (lines_in whole (drop at piece.now ++ text))
            ≡ lines_with undirected number room self.new (lines_in whole (drop result piece.now ++ text)) }
    {
        let mut value = u64::from(piece[at].saturating_sub(b'0'));
        let mut next = at + 1;
        'digits: while next < piece.len() && value < SMALL && piece[next].is_ascii_digit() {
            value = 10 * value + u64::from(piece[next].saturating_sub(b'0'));
            next += 1;
        }
        self.digits = Digits::of(value);
        if next < piece.len() && is_blank_byte(piece[next]) {
            self.fields.add(self.digits);
            return next + 1;
        }
        self.place = Place::Field;
        next
    }

    /// Takes the byte at a place of a text, and more where a number begins there. Answers the place after what is taken.
    #[inline]
    pub(crate) fn take_from(&mut self, piece: &[u8], at: usize) -> usize
        requires within { at < length piece.now }
        requires inside { slice_index piece.now at ≢ 10 }
        ensures onward { at < result }
        ensures within { result ≤ length piece.now }
        ensures taken { (undirected : Bool) (number room : ℕ) (whole : Bool) (text : List ℕ) →
            lines_with undirected number room self.old (lines_in whole (drop at piece.now ++ text))
            ≡ lines_with undirected number room self.new (lines_in whole (drop result piece.now ++ text)) }
    {
        match self.place {
            Place::Gap if !self.returned && piece[at].is_ascii_digit() => {
                self.take_number(piece, at)
            }
            _ => {
                self.take(piece[at]);
                at + 1
            }
        }
    }

    /// What the line comes to if it ends here.
    #[inline]
    pub(crate) fn edge(&self) -> Result<Option<Edge>, Why>
        ensures { result ≡ line_with self.now [] }
    {
        match self.place {
            Place::Gap => self.fields.outcome(),
            Place::Field => {
                let mut fields = self.fields;
                fields.add(self.digits);
                fields.outcome()
            }
            Place::Comment => Ok(None),
        }
    }
}
