//! From the text of a core module to its bytes.

use bumpalo::Bump;
use core_encode::{encode_module, fits_core, resolve_fields};
use core_syntax::{Module, ModuleKind, core_weight};
use std::alloc::Global;
use wast_parser::{Error, ErrorKind, ParseBuffer, parse};

/// The weight that a core module may have.
const WEIGHT_LIMIT: u64 = 67_108_864;

/// The refusal of a module that is too heavy, or whose binary can't be written.
fn too_heavy(weight: u64) -> Error {
    Error {
        kind: ErrorKind::TooBig {
            found: weight,
            limit: WEIGHT_LIMIT,
        },
        offset: 0,
    }
}

/// The bytes of the core module that a text spells, which is written without the parentheses around it.
///
/// It is refused as its reader, the limit of its weight and `resolve_fields` refuse it; one that is written as its bytes is refused by
/// `Module` at 0. A form that is read and never written has no bytes.
pub fn encode(alloc: Global, text: &str) -> Result<Vec<u8>, Error> {
    let arena = Bump::new(alloc);
    let buffer = ParseBuffer::new(alloc, text, &arena, false)?;
    let Module { id, name, kind, .. } = parse::<Module<'_>>(alloc, &buffer)?;
    let mut fields = match kind {
        ModuleKind::Text(fields) => fields,
        ModuleKind::Binary(_) => {
            return Err(Error {
                kind: ErrorKind::Module,
                offset: 0,
            });
        }
    };
    let weight = core_weight(&fields);
    if weight > WEIGHT_LIMIT {
        return Err(too_heavy(weight));
    }
    resolve_fields(alloc, &mut fields)?;
    let resolved = fields.as_slice();
    if !fits_core(&id, &name, resolved) {
        return Err(too_heavy(weight));
    }
    encode_module(alloc, &id, &name, resolved)
}
