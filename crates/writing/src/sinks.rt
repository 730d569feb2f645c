// Where the bytes of a text go: into a buffer, or only into a count.
ghost use Rattle.std.specs.Prelude.{◌≡◌, ◌≤◌, ℕ, List, length};
ghost use Rattle.writing.specs.Sinks.{Puts, count, Filled};

// Takes bytes, one after the other.
pub(crate) trait Sink {
    // from the first value on, these bytes were taken
    ghost took: { Self → List ℕ → Self → Type 0 };

    fn put(&mut self, bytes: &[u8])
        ensures { Puts took self.old bytes.now self.new };
}

// How many bytes there were, up to the largest number: std has no writer that counts.
#[derive(Drop)]
pub(crate) struct Length {
    pub(crate) bytes: usize,
}

impl Sink for Length {
    ghost took = { λ _ x b. b.bytes ≡ count x };

    fn put(&mut self, bytes: &[u8]) {
        self.bytes = self.bytes.saturating_add(bytes.len());
    }
}

// The bytes fill a buffer from its front, as far as it goes; the first `at` places are filled.
// Not std's Cursor, whose contract does not say that it stays over the buffer lent to it: what the buffer holds in the end would not be known.
#[derive(Drop)]
pub(crate) struct Front<'a> {
    // lent memory with a count beside it, by a rule of the project
    buffer: &'a mut [u8],
    at: usize,
    ghost within: { at ≤ length buffer.now },
}

impl<'a> Front<'a> {
    pub(crate) fn over(buffer: &'a mut [u8]) -> Self
        ensures tied { result.buffer.ghost_name ≡ buffer.entry.ghost_name }
        ensures unchanged { result.buffer.now ≡ buffer.old }
        ensures empty { result.at ≡ 0 }
    {
        Front { buffer, at: 0 }
    }
}

impl Sink for Front<'_> {
    ghost took = { λ a x b. (b.buffer.ghost_name ≡ a.buffer.ghost_name) × Filled a.buffer.now x b.buffer.now b.at };

    fn put(&mut self, bytes: &[u8]) {
        let end = self.at + (self.buffer.len() - self.at).min(bytes.len());
        let part = &mut self.buffer[self.at..end];
        part.copy_from_slice(&bytes[..end - self.at]);
        self.at = end;
    }
}
