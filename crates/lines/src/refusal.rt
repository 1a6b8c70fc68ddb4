//! The line that tells a refusal.
ghost use Rattle.std.specs.Prelude.{◌≡◌};
ghost use Rattle.terms.specs.Refusals.{Answers, told};
ghost use Rattle.lines.specs.Lines.{in_line, refusal_bytes, refusal_checks, Long, buffer_after};

use crate::pieces::check_room;
use crate::writer::Writer;
use terms::Fault;

/// Writes `refused`, the number of the refusal, ` at `, its place and a line feed at the start of the buffer, and says how many
/// bytes that is; or refuses a buffer of fewer than 88 bytes.
#[tactic(auto, using(crate::proofs::Lengths::short_decimal))]
pub fn refusal_line(fault: Fault, buffer: &mut [u8]) -> Result<usize, Fault>
    ensures gives { Answers (refusal_checks buffer.old) 0 in_line (Long (refusal_bytes fault)) (told result) }
    ensures after { buffer.new ≡ buffer_after (refusal_bytes fault) buffer.old (told result) }
{
    check_room(buffer)?;
    let mut line = Writer::new(buffer);
    line.bytes(b"refused ");
    line.decimal(usize::from(fault.kind.number()));
    line.bytes(b" at ");
    line.decimal(fault.place);
    line.bytes(b"\n");
    Ok(line.len())
}
