//! The core modules beside a tree, with their bytes.

ghost use Rattle.std.specs.Prelude.{◌≡◌, true, map, option_map, IfOk};
ghost use Rattle.comp_tree.specs.Model.{lent_text};
ghost use Rattle.core_model.specs.IsResolved.{are_resolved};
ghost use Rattle.core_model.specs.Module.{core_bytes};
ghost use Rattle.core_write.specs.Module.{FitsModule};
ghost use Rattle.tree_build.specs.Cores.{module_of};
ghost use Rattle.wast_component.specs.Entry.{entry_of};
ghost use Rattle.wast_component.specs.Modules.{all_fields, modules_of, AreResolved, AreWritable};

use crate::module::{Module, parsed_module};
use core_syntax::ModuleField;
use core_write::encode_module;
use std::alloc::{AllocError, Global};
use tree_read::NamedModule;
use tree_write::CoreBytes;
use wast_parser::{ErrorKind, NameAnnotation};

/// A core module with its bytes.
#[derive(Drop)]
pub(crate) struct Coded<'t, 'a> {
    parsed: Module<'t, 'a>,
    bytes: Vec<u8>,
    ghost written: { bytes.items ≡ core_bytes (entry_of parsed) },
}

impl CoreBytes for Coded<'_, '_> {
    ghost use Rattle.tree_build.specs.Cores.{module_of};
    ghost use Rattle.wast_component.specs.Entry.{entry_of};

    ghost core_module = { λ c. entry_of c.parsed };

    fn bytes(&self) -> &[u8] {
        self.bytes.as_slice()
    }
}

/// The annotation of a label.
fn annotation(label: Option<&str>) -> Option<NameAnnotation<'_>>
    ensures { option_map (λ n. n.name.now) result ≡ option_map lent_text label.entry }
{
    match label {
        Some(name) => Some(NameAnnotation { name }),
        None => None,
    }
}

/// A module whose names are numbers, with its bytes.
fn coded_module<'t, 'a>(alloc: Global, parsed: Module<'t, 'a>) -> Result<Coded<'t, 'a>, AllocError>
    requires resolved { are_resolved (entry_of parsed).fields ≡ true }
    requires fits { FitsModule (entry_of parsed).naming (entry_of parsed).fields }
    ensures { IfOk result (λ c. entry_of c.parsed ≡ entry_of parsed.entry) }
{
    let name = annotation(parsed.label);
    match encode_module(alloc, &parsed.id, &name, parsed.fields) {
        Ok(bytes) => Ok(Coded { parsed, bytes }),
        Err(refusal) => match refusal.kind {
            ErrorKind::NoMemory => Err(AllocError),
            _ => unreachable!(),
        },
    }
}

/// The module of an entry, with its bytes.
fn coded_at<'t, 'a>(
    alloc: Global,
    all: &'t [Vec<ModuleField<'a>>],
    named: &NamedModule<'a>,
) -> Result<Coded<'t, 'a>, AllocError>
    requires resolved { AreResolved (all_fields all.now) }
    requires fits { FitsModule (module_of (all_fields all.now) named.now).naming (module_of (all_fields all.now) named.now).fields }
    ensures { IfOk result (λ c. entry_of c.parsed ≡ module_of (all_fields all.now) named.now) }
{
    coded_module(alloc, parsed_module(all, named))
}

/// The core modules of a tree, with their bytes.
pub(crate) fn coded_modules<'t, 'a>(
    alloc: Global,
    all: &'t [Vec<ModuleField<'a>>],
    named: &[NamedModule<'a>],
) -> Result<Vec<Coded<'t, 'a>>, AllocError>
    requires resolved { AreResolved (all_fields all.now) }
    requires fits { AreWritable (modules_of (all_fields all.now) named.now) }
    ensures { IfOk result (λ v. map (λ c. entry_of c.parsed) v.items ≡ modules_of (all_fields all.now) named.now) }
{
    let mut modules = Vec::new(alloc);
    for one in named {
        let coded = coded_at(alloc, all, one)?;
        modules.push(coded)?;
    }
    Ok(modules)
}
