//! What is said of one reference, and of all.

/// Whether a reference is to something that stands before it.
#[derive(Clone, Copy, PartialEq, Eq, Debug)]
pub enum Verdict {
    /// It is.
    InOrder,
    /// Fewer items of the space stand before it.
    Early,
    /// As many scopes as the alias counts outward aren't open.
    OutOfRange,
}

/// Whether the lines of a component are in order.
#[derive(Clone, Copy, PartialEq, Eq, Debug)]
pub enum Order {
    /// They are.
    Ordered,
    /// The first line that isn't in order has this number.
    Index {
        /// The number of the line, from 0.
        line: u64,
    },
    /// The count of scopes of this line, the first that isn't in order, is out of range.
    Outer {
        /// The number of the line, from 0.
        line: u64,
    },
}
