//! Adds the target of a page reference to a line, as it shows it.

ghost use Rattle.bk_io.specs.Buffers.{Gives};
ghost use Rattle.bk_io.specs.Escapes.{shown_byte};
ghost use Rattle.bk_io.specs.Sink.{HasCause};
ghost use Rattle.book.specs.Message.{shown_target};

use bk_io::buffer::Buffer;
use bk_io::escape::{has_no_control, shown_byte};
use bk_io::sink::{Failed, Sink};

/// Adds a byte of a target.
fn add_byte<E: Sink>(line: &mut Buffer, err: &mut E, b: u8) -> Result<(), Failed>
    ensures bytes { Gives (E.taken err.old) line.old (E.taken err.new) line.new (shown_byte b) result }
    ensures cause { HasCause (E.faults err.old) (E.faults err.new) result }
{
    line.add(err, shown_byte(b).as_slice())
}

/// Adds the bytes of a target one by one.
fn add_bytes<E: Sink>(line: &mut Buffer, err: &mut E, target: &str) -> Result<(), Failed>
    ensures bytes { Gives (E.taken err.old) line.old (E.taken err.new) line.new (shown_target target.now) result }
    ensures cause { HasCause (E.faults err.old) (E.faults err.new) result }
{
    for b in target.as_bytes() {
        add_byte(line, err, *b)?;
    }
    Ok(())
}

/// Adds a target, at once where each byte stands as it is, as in most.
pub(crate) fn add_target<E: Sink>(
    line: &mut Buffer,
    err: &mut E,
    target: &str,
) -> Result<(), Failed>
    ensures bytes { Gives (E.taken err.old) line.old (E.taken err.new) line.new (shown_target target.now) result }
    ensures cause { HasCause (E.faults err.old) (E.faults err.new) result }
{
    if has_no_control(target) {
        line.add_text(err, target)
    } else {
        add_bytes(line, err, target)
    }
}
