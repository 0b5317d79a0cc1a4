//! Bytes that wait to be put, so that a short line is one put.

ghost use Rattle.std.specs.Prelude.{◌≡◌, ◌++◌, ◌+◌, ◌<◌, ◌≤◌, [], OnOk, length};
ghost use Rattle.std.specs.List.{flat_map};
ghost use Rattle.bk_io.specs.Buffers.{Gives};
ghost use Rattle.bk_io.specs.Sink.{HasCause};

use crate::put_all::put_all;
use crate::sink::{Failed, Sink};
use std::marker::Model;

/// How many bytes wait at most.
const ROOM: usize = 4096;

/// Bytes that wait to be put, at most 4,096. Contracts see the list.
#[derive(Drop)]
pub struct Buffer {
    bytes: [u8; 4096],
    used: usize,
}

impl Model for Buffer {
    ghost use Rattle.std.specs.Prelude.{List, ℕ, take, ◌≤◌};

    ghost Value = { List ℕ };

    ghost view = { λ b. take b.used b.bytes };

    ghost invariant = { λ b. b.used ≤ 4096 };
}

impl Buffer {
    /// A buffer in which nothing waits.
    pub fn new() -> Buffer
        ensures { result ≡ [] }
    {
        Buffer {
            bytes: [0; 4096],
            used: 0,
        }
    }

    /// Puts what waits.
    pub fn flush<S: Sink>(&mut self, sink: &mut S) -> Result<(), Failed>
        ensures bytes { Gives (S.taken sink.old) self.old (S.taken sink.new) self.new [] result }
        ensures empty { OnOk result (self.new ≡ []) }
        ensures cause { HasCause (S.faults sink.old) (S.faults sink.new) result }
    {
        put_all(sink, &self.bytes[..self.used])?;
        self.used = 0;
        Ok(())
    }

    /// How many more bytes can wait.
    fn room(&self) -> usize
        ensures { result + length self.now ≡ 4096 }
    {
        ROOM - self.used
    }

    /// Lets bytes wait for which there is room.
    fn fill(&mut self, piece: &[u8])
        requires { length self.old + length piece.now ≤ 4096 }
        ensures { self.new ≡ self.old ++ piece.now }
    {
        let end = self.used + piece.len();
        self.bytes[self.used..end].copy_from_slice(piece);
        self.used = end;
    }

    /// Puts what waits where there is no room for so many bytes.
    fn make_room<S: Sink>(&mut self, sink: &mut S, len: usize) -> Result<(), Failed>
        requires { len ≤ 4096 }
        ensures bytes { Gives (S.taken sink.old) self.old (S.taken sink.new) self.new [] result }
        ensures room { OnOk result (length self.new + len ≤ 4096) }
        ensures same { length self.old + len ≤ 4096 → (self.new ≡ self.old) × (sink.new ≡ sink.old) }
        ensures cause { HasCause (S.faults sink.old) (S.faults sink.new) result }
    {
        if self.room() < len {
            return self.flush(sink);
        }
        Ok(())
    }

    /// Lets bytes wait, after what waits was put where there is no room.
    fn add_short<S: Sink>(&mut self, sink: &mut S, piece: &[u8]) -> Result<(), Failed>
        requires { length piece.now ≤ 4096 }
        ensures bytes { Gives (S.taken sink.old) self.old (S.taken sink.new) self.new piece.now result }
        ensures waits { length self.old + length piece.now ≤ 4096 → sink.new ≡ sink.old }
        ensures cause { HasCause (S.faults sink.old) (S.faults sink.new) result }
    {
        self.make_room(sink, piece.len())?;
        self.fill(piece);
        Ok(())
    }

    /// Puts what waits and then these bytes.
    fn put_past<S: Sink>(&mut self, sink: &mut S, piece: &[u8]) -> Result<(), Failed>
        ensures bytes { Gives (S.taken sink.old) self.old (S.taken sink.new) self.new piece.now result }
        ensures cause { HasCause (S.faults sink.old) (S.faults sink.new) result }
    {
        self.flush(sink)?;
        put_all(sink, piece)
    }

    /// Adds bytes: they wait where there is room for them, else what waits is put first. More bytes than can wait are
    /// put as they are.
    ///
    /// # Errors
    ///
    /// `Failed` where a put failed. Then a prefix of what waited and these bytes was put.
    pub fn add<S: Sink>(&mut self, sink: &mut S, piece: &[u8]) -> Result<(), Failed>
        ensures bytes { Gives (S.taken sink.old) self.old (S.taken sink.new) self.new piece.now result }
        ensures waits { length self.old + length piece.now ≤ 4096 → sink.new ≡ sink.old }
        ensures cause { HasCause (S.faults sink.old) (S.faults sink.new) result }
    {
        if piece.len() > ROOM {
            self.put_past(sink, piece)
        } else {
            self.add_short(sink, piece)
        }
    }

    /// Adds a text, as `add` adds bytes.
    pub fn add_text<S: Sink>(&mut self, sink: &mut S, text: &str) -> Result<(), Failed>
        ensures bytes { Gives (S.taken sink.old) self.old (S.taken sink.new) self.new text.now result }
        ensures cause { HasCause (S.faults sink.old) (S.faults sink.new) result }
    {
        self.add(sink, text.as_bytes())
    }

    /// Adds some texts one after the other, as `add` adds bytes.
    pub fn add_texts<S: Sink>(&mut self, sink: &mut S, texts: &[&str]) -> Result<(), Failed>
        ensures bytes { Gives (S.taken sink.old) self.old (S.taken sink.new) self.new
            (flat_map (λ t. t.now) texts.now) result }
        ensures cause { HasCause (S.faults sink.old) (S.faults sink.new) result }
    {
        for text in texts {
            self.add_text(sink, text)?;
        }
        Ok(())
    }
}
