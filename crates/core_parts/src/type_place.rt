//! Where the type of a memory or a table stands.

/// In the signature of an import, or in a field of its own, which may hold more that is read and never written.
#[derive(Clone, Copy)]
pub enum Place {
    Signature,
    Field,
}
