//! The rows of the binary format, section by section, with bytes that were worked out by hand.

ghost use Rattle.std.specs.Prelude.{◌≡◌, true, None, [], IfOk};
ghost use Rattle.comp_wire.specs.Read.{Reads};
ghost use Rattle.comp_wire.specs.Fits.{fits};
ghost use Rattle.comp_wire.specs.Definitions.{component_of_defs, component_of_list, named_defs};

mod canons;
mod instances;
mod items;
mod lists;
mod names;
mod numbers;
mod types;

use comp_wire::{ComponentSink, NameMaps, NoMemory, Seq, WireDef};
use std::alloc::Global;
use std::process::Abort;

/// What a component begins with.
const PREAMBLE: [u8; 8] = [0x00, 0x61, 0x73, 0x6d, 0x0d, 0x00, 0x01, 0x00];

/// No names.
fn no_names<'a>(alloc: Global) -> NameMaps<'a>
    ensures component { result.component ≡ None }
    ensures maps { result.maps ≡ [] }
{
    NameMaps {
        component: None,
        maps: Seq::from_vec(Vec::new(alloc)),
    }
}

/// A list of these items.
fn list<T: Drop, const N: usize>(rt: &impl Abort, alloc: Global, items: [T; N]) -> Seq<T>
    ensures { result ≡ items }
{
    Seq::from_vec(Vec::from_array(alloc, items).expect(rt, "memory"))
}

/// Whether bytes are those of a component with these sections.
fn is_component(bytes: &[u8], sections: &[u8]) -> bool {
    match bytes.split_at_checked(PREAMBLE.len()) {
        Some((preamble, rest)) => preamble == PREAMBLE.as_slice() && rest == sections,
        None => false,
    }
}

/// The binary of a component of these definitions and names.
fn component_bytes(
    alloc: Global,
    defs: &[WireDef<'_>],
    names: &NameMaps<'_>,
) -> Result<Vec<u8>, NoMemory>
    requires { fits (component_of_defs (named_defs defs.now names.now)) ≡ true }
    ensures { IfOk result (λ bytes. Reads bytes.items (component_of_defs (named_defs defs.now names.now))) }
{
    let mut sink = ComponentSink::new(alloc)?;
    for def in defs {
        sink.put(def)?;
    }
    sink.names(names)?;
    sink.finish()
}

/// Whether the component of these definitions and names has these sections. It takes the definitions, so that no test drops them.
fn is_named(
    alloc: Global,
    defs: Seq<WireDef<'_>>,
    names: NameMaps<'_>,
    sections: &[u8],
) -> Result<bool, NoMemory>
    requires { fits (component_of_defs (named_defs defs names)) ≡ true }
{
    let bytes = component_bytes(alloc, defs.as_slice(), &names)?;
    Ok(is_component(bytes.as_slice(), sections))
}

/// Whether the component of these definitions has these sections.
fn is_written(alloc: Global, defs: Seq<WireDef<'_>>, sections: &[u8]) -> Result<bool, NoMemory>
    requires { fits (component_of_list defs) ≡ true }
{
    is_named(alloc, defs, no_names(alloc), sections)
}
