//! What takes bytes, from the last one to the first: a count counts them, and a buffer keeps them.
//!
//! A length stands in front of what it measures. Bytes that come from the last one to the first are there before their length, and how
//! many they are is the difference of two counts; so one walk over a tree serves both to measure it and to write it, and nothing is kept
//! between the two.

ghost use Rattle.std.specs.Prelude.{◌≡◌, ◌<◌, ◌+◌, ◌-◌, ◌^◌, ◌∷◌, []};
ghost use Rattle.tree_write.specs.Kept.{Kept, put, Taken, count_kept, buffer_kept};

/// What takes bytes, in front of those that it took before.
pub trait Sink {
    /// What it took.
    ghost kept: { Self → Kept };

    /// Takes one byte.
    fn byte(&mut self, byte: u8)
        ensures { kept self.new ≡ put (byte ∷ []) (kept self.old) };

    /// Takes bytes, in their order.
    fn bytes(&mut self, bytes: &[u8])
        ensures { kept self.new ≡ put bytes.now (kept self.old) };

    /// How many bytes it took.
    fn length(&self) -> u64
        ensures { Taken (kept self.now) result };
}

/// A count of bytes; `u64::MAX` stands for every greater number.
#[derive(Clone, Copy)]
pub struct Count {
    /// How many.
    pub bytes: u64,
}

impl Sink for Count {
    ghost kept = { λ c. count_kept c.bytes };

    fn byte(&mut self, _byte: u8) {
        self.bytes = self.bytes.saturating_add(1);
    }

    fn bytes(&mut self, bytes: &[u8]) {
        self.bytes = self.bytes.saturating_add(bytes.len() as u64);
    }

    fn length(&self) -> u64 {
        self.bytes
    }
}

/// A buffer that is filled from its end.
#[derive(Drop)]
pub struct Buffer {
    /// The bytes.
    pub bytes: Vec<u8>,
    /// Where the bytes that were taken begin.
    pub at: usize,
    /// Whether there was no room for some.
    pub full: bool,
}

/// The place before another; where there is none, one that no buffer has.
#[inline(always)]
fn place_before(at: usize) -> usize
    ensures none { at ≡ 0 → result ≡ 2 ^ 64 - 1 }
    ensures some { 0 < at → result + 1 ≡ at }
{
    at.wrapping_sub(1)
}

impl Sink for Buffer {
    ghost kept = { λ b. buffer_kept b.bytes.items b.at b.full };

    fn byte(&mut self, byte: u8) {
        let at = place_before(self.at);
        if at >= self.bytes.len() {
            self.full = true;
            return;
        }
        self.at = at;
        self.bytes[at] = byte;
    }

    fn bytes(&mut self, bytes: &[u8]) {
        if self.at > self.bytes.len() {
            self.full = true;
            return;
        }
        if self.at < bytes.len() {
            self.full = true;
            return;
        }
        let end = self.at;
        self.at -= bytes.len();
        self.bytes[self.at..end].copy_from_slice(bytes);
    }

    fn length(&self) -> u64 {
        if self.at > self.bytes.len() {
            return 0;
        }
        (self.bytes.len() - self.at) as u64
    }
}
