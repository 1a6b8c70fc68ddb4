//! The line that says that a class is under another.
ghost use Rattle.std.specs.Prelude.{◌≡◌};
ghost use Rattle.terms.specs.Refusals.{Answers, told};
ghost use Rattle.lines.specs.Lines.{in_line, under_bytes, under_checks, Long, buffer_after};

use crate::pieces::check_room;
use crate::writer::Writer;
use sources::Source;
use terms::{Fault, Layer};

/// Writes the lower class's name, ` under `, the upper class's name and a line feed at the start of the buffer, and says how many
/// bytes that is; or refuses a class that is not there, and then a buffer of fewer than 88 bytes.
pub fn under_line<S: Source>(
    source: &S,
    lower: u8,
    upper: u8,
    buffer: &mut [u8],
) -> Result<usize, Fault>
    ensures gives { Answers (under_checks (S.Source.meaning source.now) lower upper buffer.old) 0 in_line
        (Long (under_bytes (S.Source.meaning source.now) lower upper)) (told result) }
    ensures after { buffer.new ≡ buffer_after (under_bytes (S.Source.meaning source.now) lower upper) buffer.old (told result) }
{
    let classes = source.class_count();
    if lower >= classes || upper >= classes {
        return Err(Layer::Line.past_end());
    }
    check_room(buffer)?;
    let mut line = Writer::new(buffer);
    line.name(source, lower);
    line.bytes(b" under ");
    line.name(source, upper);
    line.bytes(b"\n");
    Ok(line.len())
}
