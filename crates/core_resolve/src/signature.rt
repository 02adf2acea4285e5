//! Function types with their names resolved, by which types are told apart.

ghost use Rattle.std.specs.Prelude.{◌≡◌, [], length, IfOk};
ghost use Rattle.core_model.specs.Types.{Signature as ModelSignature};
ghost use Rattle.core_resolve.specs.Signatures.{signature};

use core_names::ResolvedType;
use std::alloc::{AllocError, Global};

/// A function type with its names resolved (WebAssembly, text format, Function Types).
#[derive(PartialEq, Eq, PartialOrd, Ord, Drop)]
pub(crate) struct Signature {
    /// The types of the parameters, in order.
    pub(crate) params: Vec<ResolvedType>,
    /// The types of the results, in order.
    pub(crate) results: Vec<ResolvedType>,
}

impl Signature {
    /// The signature without parameters and results. It takes no memory.
    pub(crate) fn empty(alloc: Global) -> Signature
        ensures { signature result ≡ record { params = []; results = [] } }
    {
        Signature {
            params: Vec::new(alloc),
            results: Vec::new(alloc),
        }
    }

    /// The same signature once more.
    pub(crate) fn duplicate(&self, alloc: Global) -> Result<Signature, AllocError>
        ensures { IfOk result (λ s. signature s ≡ signature self.now) }
    {
        Ok(Signature {
            params: Vec::from_slice(alloc, self.params.as_slice())?,
            results: Vec::from_slice(alloc, self.results.as_slice())?,
        })
    }
}
