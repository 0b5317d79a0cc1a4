//! Puts whole texts.

ghost use Rattle.std.specs.List.{flat_map};
ghost use Rattle.bk_io.specs.Sink.{AppendsAllOrPrefix, HasCause};

use crate::buffer::Buffer;
use crate::sink::{Failed, Sink};

/// Puts all of the bytes, or a part of them from their start.
pub fn put_all<S: Sink>(sink: &mut S, bytes: &[u8]) -> Result<(), Failed>
    ensures bytes { AppendsAllOrPrefix (S.taken sink.old) (S.taken sink.new) bytes.now result }
    ensures cause { HasCause (S.faults sink.old) (S.faults sink.new) result }
{
    let mut at = 0;
    while at < bytes.len() {
        at += sink.put(&bytes[at..])?;
    }
    Ok(())
}

/// Puts some texts one after the other, or a part of them from their start. What has 4,096 bytes at most is one piece,
/// so that a line doesn't mix with those of other programs.
pub fn put_texts<S: Sink>(sink: &mut S, texts: &[&str]) -> Result<(), Failed>
    ensures bytes { AppendsAllOrPrefix (S.taken sink.old) (S.taken sink.new) (flat_map (λ t. t.now) texts.now) result }
    ensures cause { HasCause (S.faults sink.old) (S.faults sink.new) result }
{
    let mut buffer = Buffer::new();
    buffer.add_texts(sink, texts)?;
    buffer.flush(sink)
}
