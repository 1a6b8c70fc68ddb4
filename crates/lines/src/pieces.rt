//! The pieces of a line, written one behind the other: fixed bytes, names and numbers.
ghost use Rattle.std.specs.Prelude.{◌≡◌, ◌+◌, ◌<◌, ◌≤◌, [], ◌∷◌, length, decimal};
ghost use Rattle.terms.specs.Refusals.{Answers, told};
ghost use Rattle.sources.specs.Meanings.{name_of};
ghost use Rattle.lines.specs.Lines.{in_line, refusal_checks};
ghost use Rattle.lines.specs.Writing.{Writes};

use crate::writer::Writer;
use sources::Source;
use terms::{Fault, Layer, Refusal};

/// No line has more bytes: two names of 40, seven between them and a line feed.
pub const MOST_BYTES: usize = 88;

/// Refuses a buffer of fewer than 88 bytes.
pub(crate) fn check_room(buffer: &[u8]) -> Result<(), Fault>
    ensures { Answers (refusal_checks buffer.now) 0 in_line (λ _. Unit {0}) (told result) }
{
    if buffer.len() < MOST_BYTES {
        return Err(Refusal::TableSize.at(0, Layer::Line));
    }
    Ok(())
}

impl<'a> Writer<'a> {
    /// Begins a line at the start of a buffer.
    pub(crate) fn new(buffer: &'a mut [u8]) -> Self
        ensures place { result.place ≡ 0 }
        ensures buffer { result.buffer ≡ buffer.entry }
    {
        Writer { buffer, place: 0 }
    }

    /// How many bytes are written.
    pub(crate) fn len(&self) -> usize
        ensures { result ≡ self.now.place }
    {
        self.place
    }

    /// Writes a byte.
    fn byte(&mut self, byte: u8)
        requires { self.old.place < length self.old.buffer.now }
        ensures { Writes self.old (byte ∷ []) self.new }
    {
        self.buffer[self.place] = byte;
        self.place += 1;
    }

    /// Writes bytes.
    pub(crate) fn bytes(&mut self, bytes: &[u8])
        requires { self.old.place + length bytes.now ≤ length self.old.buffer.now }
        ensures { Writes self.old bytes.now self.new }
    {
        let end = self.place + bytes.len();
        self.buffer[self.place..end].copy_from_slice(bytes);
        self.place = end;
    }

    /// Writes the name of a class that is there.
    pub(crate) fn name<S: Source>(&mut self, source: &S, class: u8)
        requires there { class < (S.Source.meaning source.now).classes }
        requires room { self.old.place + length (name_of (S.Source.meaning source.now) class) ≤ length self.old.buffer.now }
        ensures { Writes self.old (name_of (S.Source.meaning source.now) class) self.new }
    {
        // A source answers a name byte by byte, by its index, so the loop counts.
        for i in 0..source.name_len(class).unwrap() {
            self.byte(source.name_byte(class, i).unwrap());
        }
    }

    /// Writes a number in decimal.
    // Digit by digit: `write!` answers that it may fail, and a line that has room may not.
    pub(crate) fn decimal(&mut self, number: usize)
        requires { self.old.place + length (decimal number) ≤ length self.old.buffer.now }
        ensures { Writes self.old (decimal number) self.new }
    {
        if number >= 10 {
            self.decimal(number / 10);
        }
        self.byte(b'0' + (number % 10) as u8);
    }
}
