//! A whole module.

ghost use Rattle.std.specs.Prelude.{◌≡◌, ◌++◌, true, OnOk, IfOk, IfErr};
ghost use Rattle.wast_tokens.specs.declared.error.ErrorKind.TheVariants.{NoMemory as NoMemoryKind};
ghost use Rattle.core_model.specs.Bytes.{preamble};
ghost use Rattle.core_model.specs.IsResolved.{are_resolved};
ghost use Rattle.core_model.specs.Module.{CoreWrites, module_with};
ghost use Rattle.core_syntax.specs.Fields.{naming_of, fields_of};
ghost use Rattle.core_names.specs.Names.{refusal};
ghost use Rattle.core_write.specs.Module.{resolved_sections, resolved_bytes, FitsModule, FitsPart, FitsExportSection};

use crate::bytes::push_bytes;
use crate::exports::push_export_section;
use crate::name_section::push_name_section;
use crate::part::Part;
use crate::sections::push_part;
use comp_wire::NoMemory;
use core_syntax::ModuleField;
use std::alloc::Global;
use wast_parser::{Error, ErrorKind, Id, NameAnnotation};

/// Appends the sections, in order.
fn push_sections(
    alloc: Global,
    out: &mut Vec<u8>,
    fields: &[ModuleField<'_>],
) -> Result<(), NoMemory>
    requires types { FitsPart Part.Types (fields_of fields.now) }
    requires imports { FitsPart Part.Imports (fields_of fields.now) }
    requires functions { FitsPart Part.Functions (fields_of fields.now) }
    requires tables { FitsPart Part.Tables (fields_of fields.now) }
    requires memories { FitsPart Part.Memories (fields_of fields.now) }
    requires globals { FitsPart Part.Globals (fields_of fields.now) }
    requires exports { FitsExportSection (fields_of fields.now) }
    requires code { FitsPart Part.Code (fields_of fields.now) }
    ensures { OnOk result (out.new.items ≡ out.old.items ++ resolved_sections (fields_of fields.now)) }
{
    push_part(alloc, out, Part::Types, fields)?;
    push_part(alloc, out, Part::Imports, fields)?;
    push_part(alloc, out, Part::Functions, fields)?;
    push_part(alloc, out, Part::Tables, fields)?;
    push_part(alloc, out, Part::Memories, fields)?;
    push_part(alloc, out, Part::Globals, fields)?;
    push_export_section(alloc, out, fields)?;
    push_part(alloc, out, Part::Code, fields)
}

/// The bytes of a module whose names are resolved.
fn module_bytes(
    alloc: Global,
    id: &Option<Id<'_>>,
    name: &Option<NameAnnotation<'_>>,
    fields: &[ModuleField<'_>],
) -> Result<Vec<u8>, NoMemory>
    requires { FitsModule (naming_of id.now name.now) (fields_of fields.now) }
    ensures { IfOk result (λ v. v.items ≡ resolved_bytes (naming_of id.now name.now) (fields_of fields.now)) }
{
    let mut out = Vec::new(alloc);
    push_bytes(&mut out, b"\0asm\x01\0\0\0")?;
    push_sections(alloc, &mut out, fields)?;
    push_name_section(alloc, &mut out, id, name, fields)?;
    Ok(out)
}

/// The bytes of a module of this id, this label and these fields, whose names are resolved, the name section among them
/// (WebAssembly, binary format, Modules). It needs that each count, index and length in them is below `2 ^ 32`. Its one refusal is
/// want of memory, `NoMemory` at 0.
///
/// A form that is read and never written has no byte, and no count counts it.
pub fn encode_module(
    alloc: Global,
    id: &Option<Id<'_>>,
    name: &Option<NameAnnotation<'_>>,
    fields: &[ModuleField<'_>],
) -> Result<Vec<u8>, Error>
    requires resolved { are_resolved (fields_of fields.now) ≡ true }
    requires fits { FitsModule (naming_of id.now name.now) (fields_of fields.now) }
    ensures bytes { IfOk result (λ v. CoreWrites (module_with (naming_of id.now name.now) (fields_of fields.now)) v.items) }
    ensures refused { IfErr result (λ e. e ≡ refusal NoMemoryKind 0) }
{
    match module_bytes(alloc, id, name, fields) {
        Ok(bytes) => Ok(bytes),
        Err(NoMemory) => Err(Error {
            kind: ErrorKind::NoMemory,
            offset: 0,
        }),
    }
}
