//! The size of items: how many there are, how many bytes they have, and whether what is tested of them holds.

ghost use Rattle.std.specs.Prelude.{◌≡◌, ◌+◌, ◌&&◌, true, false, length};
ghost use Rattle.comp_model.specs.Leb.{uleb};
ghost use Rattle.comp_wire.specs.Fits.{is_word as is_below};
ghost use Rattle.core_syntax.specs.Measures.{capped};

use crate::lengths::add;
use leb_lengths::{is_word, uleb_length};

/// The size of items, one behind the other. `u64::MAX` stands for every greater number.
#[derive(Clone, Copy)]
pub(crate) struct Size {
    /// How many items there are.
    pub(crate) count: u64,
    /// How many bytes they have.
    pub(crate) bytes: u64,
    /// Whether the indices and counts in them that are tested are below 2^32.
    pub(crate) fits: bool,
}

impl Size {
    /// The size of no item.
    pub(crate) fn none() -> Size
        ensures count { result.count ≡ 0 }
        ensures bytes { result.bytes ≡ 0 }
        ensures fits { result.fits ≡ true }
    {
        Size {
            count: 0,
            bytes: 0,
            fits: true,
        }
    }

    /// The size of one item of so many bytes.
    pub(crate) fn one(bytes: u64, fits: bool) -> Size
        ensures count { result.count ≡ 1 }
        ensures bytes { result.bytes ≡ bytes }
        ensures fits { result.fits ≡ fits }
    {
        Size {
            count: 1,
            bytes,
            fits,
        }
    }

    /// The size of items with others behind them.
    pub(crate) fn and(self, behind: Size) -> Size
        ensures count { result.count ≡ capped (self.count + behind.count) }
        ensures bytes { result.bytes ≡ capped (self.bytes + behind.bytes) }
        ensures fits { result.fits ≡ (self.fits && behind.fits) }
    {
        Size {
            count: add(self.count, behind.count),
            bytes: add(self.bytes, behind.bytes),
            fits: self.fits && behind.fits,
        }
    }

    /// The length of a count and so many items.
    pub(crate) fn counted_length(self) -> u64
        ensures { result ≡ capped (length (uleb self.count) + self.bytes) }
    {
        add(uleb_length(self.count), self.bytes)
    }

    /// Whether items fit that stand in a section: their count, and its length.
    pub(crate) fn fits_section(self) -> bool
        ensures { result ≡ (self.fits && (is_below self.count && is_below (capped (length (uleb self.count) + self.bytes)))) }
    {
        self.fits && is_word(self.count) && is_word(self.counted_length())
    }
}
