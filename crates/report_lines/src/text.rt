//! Text to which lines are added: on its way to a writer, or made ahead of its turn.

ghost use Rattle.std.specs.Prelude.{◌≡◌, ℕ, ◌+◌, ◌≤◌, List, [], Option, Some, None, length, refl};
ghost use Rattle.std.specs.Borrow.{Lends, sem};
ghost use Rattle.mrt_frame.specs.Devices.{greatest_count};
ghost use Rattle.report_lines.specs.Texts.{BufferState, TextState, text_state, IsText, Adds, IsOutput};
ghost use Rattle.report_lines.specs.contracts.buffer.TextBuffer.{the_row};

use crate::buffer::{CAPACITY, TextBuffer};
use mrt_frame::{Failed, ReplayError, Sink, write_full};

/// From how many bytes on a piece isn't copied on its way to a writer.
const LONG: usize = 4096;

/// Text to which pieces are added by way of a buffer.
pub trait Text {
    /// What is known of it.
    ghost state: { Self → TextState };

    /// The same with another buffer.
    ghost with_buffer: { Self → BufferState → Self };

    /// Its buffer.
    fn buffer(&self) -> &TextBuffer
        ensures { result.now ≡ (state self.now).buffer };

    /// Its buffer, to add to what waits there.
    fn buffer_mut(&mut self) -> &mut TextBuffer
        ensures* lends { sem 𝓛 (Lends Self.row the_row self.entry result (with_buffer self.old)) }
        ensures now { result.now ≡ (state self.old).buffer };

    /// Makes room in the buffer for some bytes.
    fn make_room(&mut self, count: usize)
        requires { count ≤ CAPACITY }
        ensures adds { Adds (state self.old) (state self.new) [] }
        ensures room { length (state self.new).buffer.waiting + count ≤ CAPACITY };

    /// Adds bytes.
    fn put_text(&mut self, bytes: &[u8])
        ensures { Adds (state self.old) (state self.new) bytes.now };

    ghost buffer_is: { (text : Self) (buffer : BufferState) →
        state (with_buffer text buffer) ≡ record (state text) { buffer = buffer } };
}

/// Ends a text, and reports whether a write failed.
pub fn finish<T: Text>(text: &mut T) -> Result<(), ReplayError>
    ensures same { (T.state text.new).writer ≡ (T.state text.old).writer }
    ensures output { (contents : Option (List ℕ)) (failures : ℕ) (whole : List ℕ) →
        IsText contents failures (T.state text.old) whole →
        IsOutput contents failures (T.state text.new).contents (T.state text.new).failures whole result }
{
    text.make_room(CAPACITY);
    if text.buffer().has_failed() {
        return Err(ReplayError::Write);
    }
    Ok(())
}

/// Text on its way to a writer. After a failed write the rest is dropped.
#[derive(Drop)]
pub struct TextWriter<'a, W> {
    pub buffer: TextBuffer,
    pub out: &'a mut W,
}

impl<W: Sink> TextWriter<'_, W> {
    /// Writes what waits.
    #[cold]
    #[tactic(auto, using(crate::proofs::TextLaws::Adds_dropped, crate::proofs::TextLaws::Adds_handed, crate::proofs::TextLaws::Adds_lost))]
    fn hand_on(&mut self)
        ensures adds { Adds (text_state W.contents W.failure_count self.old.out self.old.buffer)
            (text_state W.contents W.failure_count self.new.out self.new.buffer) [] }
        ensures empty { self.new.buffer.waiting ≡ [] }
    {
        if self.buffer.has_failed() {
            return self.buffer.fail();
        }
        match write_full(self.out, self.buffer.as_slice()) {
            Ok(()) => self.buffer.clear(),
            Err(Failed) => self.buffer.fail(),
        }
    }
}

impl<W: Sink> Text for TextWriter<'_, W> {
    ghost state = { λ t. text_state W.contents W.failure_count t.out t.buffer };

    ghost with_buffer = { λ t buffer. record t { buffer = buffer } };

    ghost buffer_is = { λ t buffer. refl };

    #[inline(always)]
    fn buffer(&self) -> &TextBuffer {
        &self.buffer
    }

    #[inline(always)]
    fn buffer_mut(&mut self) -> &mut TextBuffer {
        &mut self.buffer
    }

    #[inline(always)]
    fn make_room(&mut self, count: usize) {
        if count > self.buffer.room() {
            self.hand_on();
        }
    }

    fn put_text(&mut self, bytes: &[u8]) {
        if bytes.len() < LONG {
            self.make_room(bytes.len());
            return self.buffer.append(bytes);
        }
        self.hand_on();
        if self.buffer.has_failed() {
            return;
        }
        match write_full(self.out, bytes) {
            Ok(()) => {}
            Err(Failed) => self.buffer.fail(),
        }
    }
}

/// Text that is made ahead of its turn, as far as its buffer has room. Where that has none, the text has failed.
#[derive(Drop)]
pub struct TextAhead {
    pub buffer: TextBuffer,
}

impl Text for TextAhead {
    ghost state = { λ t. record {
      writer = None;
      contents = Some [];
      failures = greatest_count;
      buffer = t.buffer;
    } };

    ghost with_buffer = { λ t buffer. record t { buffer = buffer } };

    ghost buffer_is = { λ t buffer. refl };

    #[inline(always)]
    fn make_room(&mut self, count: usize) {
        if count > self.buffer.room() {
            self.buffer.fail();
        }
    }

    #[inline(always)]
    fn buffer(&self) -> &TextBuffer {
        &self.buffer
    }

    fn put_text(&mut self, bytes: &[u8]) {
        if bytes.len() > self.buffer.room() {
            return self.buffer.fail();
        }
        self.buffer.append(bytes);
    }

    #[inline(always)]
    fn buffer_mut(&mut self) -> &mut TextBuffer {
        &mut self.buffer
    }
}
