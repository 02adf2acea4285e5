//! A resolved component, written.

ghost use Rattle.std.specs.Prelude.{◌≡◌, ◌<◌, ◌^◌, IfOk, IfErr, map, List, length};
ghost use Rattle.comp_model.specs.CoreModules.{CoreModule};
ghost use Rattle.comp_tree.specs.Model.{scope_of};
ghost use Rattle.comp_wire.specs.Read.{FitsComponent, Reads};
ghost use Rattle.comp_wire.specs.Spelled.{spell_component};
ghost use Rattle.tree_write.specs.Along.{payload_by};
ghost use Rattle.tree_write.specs.FewItems.{FewItems};
ghost use Rattle.tree_write.specs.Kept.{count_kept, put};
ghost use Rattle.tree_write.specs.Plans.{payloads};
ghost use Rattle.tree_write.specs.Wire.{wire_scope};

use crate::component::write_component;
use crate::core_bytes::CoreBytes;
use crate::item_names::ComponentNames;
use crate::plans::gather_names;
use crate::sink::{Buffer, Count};
use comp_tree::Scope;
use comp_wire::NoMemory;
use std::alloc::Global;
use wast_parser::{Error, ErrorKind};

/// The names of a component and of those in it.
fn plans_of<'a>(alloc: Global, scope: &Scope<'_, 'a>) -> Result<Vec<ComponentNames<'a>>, NoMemory>
    ensures { IfOk result (λ v. (cores : List CoreModule) → FewItems (scope_of cores scope.now) → map payload_by v.items ≡ payloads (scope_of cores scope.now)) }
{
    let mut plans = Vec::new(alloc);
    gather_names(alloc, &mut plans, scope)?;
    Ok(plans)
}

/// How many bytes a component has; `u64::MAX` stands for every greater number.
fn measured<M: CoreBytes>(modules: &[M], plans: &[ComponentNames<'_>], scope: &Scope<'_, '_>) -> u64
    ensures { FitsComponent (wire_scope (map M.core_module modules.now) scope.now) → map payload_by plans.now ≡ payloads (scope_of (map M.core_module modules.now) scope.now) → count_kept result ≡ put (spell_component (wire_scope (map M.core_module modules.now) scope.now)) (count_kept 0) }
{
    let mut count = Count { bytes: 0 };
    let mut next = 0;
    write_component(&mut count, modules, plans, &mut next, scope);
    count.bytes
}

/// Room for so many bytes.
fn room(alloc: Global, size: u64) -> Result<Vec<u8>, NoMemory>
    ensures { IfOk result (λ v. length v.items ≡ size) }
{
    match vec![in alloc; 0u8; size as usize] {
        Ok(bytes) => Ok(bytes),
        Err(_) => Err(NoMemory),
    }
}

/// The component in a buffer of its length.
fn filled<M: CoreBytes>(
    modules: &[M],
    plans: &[ComponentNames<'_>],
    scope: &Scope<'_, '_>,
    bytes: Vec<u8>,
) -> Vec<u8>
    ensures { FitsComponent (wire_scope (map M.core_module modules.now) scope.now) → map payload_by plans.now ≡ payloads (scope_of (map M.core_module modules.now) scope.now) → length bytes.items ≡ length (spell_component (wire_scope (map M.core_module modules.now) scope.now)) → result.items ≡ spell_component (wire_scope (map M.core_module modules.now) scope.now) }
{
    let at = bytes.len();
    let mut buffer = Buffer {
        bytes,
        at,
        full: false,
    };
    let mut next = 0;
    write_component(&mut buffer, modules, plans, &mut next, scope);
    buffer.bytes
}

/// The bytes of a component, whatever stands in it: where `encode_scope` may be called, the binary format reads them as exactly the component
/// that the tree stands for. It is refused where an allocation failed.
pub fn component_bytes<M: CoreBytes>(
    alloc: Global,
    modules: &[M],
    scope: &Scope<'_, '_>,
) -> Result<Vec<u8>, NoMemory>
    ensures { IfOk result (λ v. FitsComponent (wire_scope (map M.core_module modules.now) scope.now) → length (spell_component (wire_scope (map M.core_module modules.now) scope.now)) < 2 ^ 32 → FewItems (scope_of (map M.core_module modules.now) scope.now) → Reads v.items (wire_scope (map M.core_module modules.now) scope.now)) }
{
    let plans = plans_of(alloc, scope)?;
    let size = measured(modules, plans.as_slice(), scope);
    let bytes = room(alloc, size)?;
    Ok(filled(modules, plans.as_slice(), scope, bytes))
}

/// The bytes of a resolved component, whose core modules stand beside the tree with their bytes: the binary format reads the bytes as
/// exactly the component that the tree stands for, with its name sections.
///
/// It needs that the component can be written: no form in it is read and never written, every number fits its place, and every count,
/// index and length is below 2^32, that of the whole too; and that no component in it declares 2^64 items. Everything is measured first;
/// then memory is asked for, once, and every byte is written once. Want of memory is the one refusal, `NoMemory` at 0: an allocation
/// failed, before the first byte.
pub fn encode_scope<M: CoreBytes>(
    alloc: Global,
    modules: &[M],
    scope: &Scope<'_, '_>,
) -> Result<Vec<u8>, Error>
    requires fits { FitsComponent (wire_scope (map M.core_module modules.now) scope.now) }
    requires length { length (spell_component (wire_scope (map M.core_module modules.now) scope.now)) < 2 ^ 32 }
    requires few { FewItems (scope_of (map M.core_module modules.now) scope.now) }
    ensures reads { IfOk result (λ v. Reads v.items (wire_scope (map M.core_module modules.now) scope.now)) }
    ensures refused { IfErr result (λ e. (e.kind ≡ ErrorKind.NoMemory) × (e.offset ≡ 0)) }
{
    match component_bytes(alloc, modules, scope) {
        Ok(bytes) => Ok(bytes),
        Err(NoMemory) => Err(Error {
            kind: ErrorKind::NoMemory,
            offset: 0,
        }),
    }
}
