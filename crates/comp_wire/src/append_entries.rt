//! The bytes of what stands in lists.

ghost use Rattle.std.specs.Prelude.{◌≡◌};
ghost use Rattle.comp_wire.specs.Values.{passed_instance};

use crate::append::{append_byte, append_indexed};
use crate::append_lists::{Entry, append_list, append_list_behind};
use crate::append_values::{
    append_core_value, append_extern_text, append_optional, append_sorted_index, append_text,
    append_value, core_byte,
};
use crate::canon::CanonicalOption;
use crate::externs::ComponentExternName;
use crate::kinds::{ComponentExportKind, ExportKind, ModuleArg};
use crate::leb::uleb;
use crate::memory::NoMemory;
use crate::values::{ComponentValType, WireFunc, WireVal};
use std::alloc::Global;

/// A field or a parameter: a name and a value type.
impl<'a> Entry for (&'a str, ComponentValType) {
    ghost use Rattle.comp_wire.specs.Table.{named_types};
    ghost use Rattle.comp_wire.specs.Values.{named_type_row};

    ghost entry_row = { named_type_row };

    ghost family = { named_types };

    fn append_entry(&self, alloc: Global, out: &mut Vec<u8>) -> Result<(), NoMemory> {
        append_text(alloc, out, self.0)?;
        append_value(alloc, out, self.1)
    }
}

/// A case of a variant: a name, and a value type where the case has one.
impl<'a> Entry for (&'a str, Option<ComponentValType>) {
    ghost use Rattle.comp_wire.specs.Table.{cases};
    ghost use Rattle.comp_wire.specs.Values.{case_row};

    ghost entry_row = { case_row };

    ghost family = { cases };

    fn append_entry(&self, alloc: Global, out: &mut Vec<u8>) -> Result<(), NoMemory> {
        append_text(alloc, out, self.0)?;
        append_optional(alloc, out, self.1)?;
        append_byte(out, 0x00)
    }
}

/// A value type.
impl Entry for ComponentValType {
    ghost use Rattle.comp_wire.specs.Table.{lone_types};
    ghost use Rattle.comp_wire.specs.Values.{lone_type_row};

    ghost entry_row = { lone_type_row };

    ghost family = { lone_types };

    fn append_entry(&self, alloc: Global, out: &mut Vec<u8>) -> Result<(), NoMemory> {
        append_value(alloc, out, *self)
    }
}

/// A name of flags or of an enumeration.
impl<'a> Entry for &'a str {
    ghost use Rattle.comp_wire.specs.Table.{lone_names};
    ghost use Rattle.comp_wire.specs.Values.{lone_name_row};

    ghost entry_row = { lone_name_row };

    ghost family = { lone_names };

    fn append_entry(&self, alloc: Global, out: &mut Vec<u8>) -> Result<(), NoMemory> {
        append_text(alloc, out, *self)
    }
}

/// A core value type.
impl Entry for WireVal {
    ghost use Rattle.comp_wire.specs.Table.{core_values};
    ghost use Rattle.comp_wire.specs.Values.{core_value_row};

    ghost entry_row = { core_value_row };

    ghost family = { core_values };

    fn append_entry(&self, alloc: Global, out: &mut Vec<u8>) -> Result<(), NoMemory> {
        append_core_value(alloc, out, *self)
    }
}

/// A core function type.
impl Entry for WireFunc {
    ghost use Rattle.comp_wire.specs.Table.{core_functions};
    ghost use Rattle.comp_wire.specs.Values.{function_row};

    ghost entry_row = { function_row };

    ghost family = { core_functions };

    fn append_entry(&self, alloc: Global, out: &mut Vec<u8>) -> Result<(), NoMemory> {
        append_list_behind(alloc, out, 0x60, &self.params)?;
        append_list(alloc, out, &self.results)
    }
}

/// The index of a core instance that is passed on.
fn instance_index(arg: ModuleArg) -> u32
    ensures { result ≡ passed_instance arg }
{
    match arg {
        ModuleArg::Instance(index) => index,
    }
}

/// What is passed to a core module: a name and a core instance.
impl<'a> Entry for (&'a str, ModuleArg) {
    ghost use Rattle.comp_wire.specs.Table.{core_arguments};
    ghost use Rattle.comp_wire.specs.Values.{core_argument_row};

    ghost entry_row = { core_argument_row };

    ghost family = { core_arguments };

    fn append_entry(&self, alloc: Global, out: &mut Vec<u8>) -> Result<(), NoMemory> {
        append_text(alloc, out, self.0)?;
        append_indexed(alloc, out, 0x12, instance_index(self.1))
    }
}

/// An item of a core instance: a name, a core sort and an index.
impl<'a> Entry for (&'a str, ExportKind, u32) {
    ghost use Rattle.comp_wire.specs.Table.{core_bundle_exports};
    ghost use Rattle.comp_wire.specs.Values.{core_export_row};

    ghost entry_row = { core_export_row };

    ghost family = { core_bundle_exports };

    fn append_entry(&self, alloc: Global, out: &mut Vec<u8>) -> Result<(), NoMemory> {
        append_text(alloc, out, self.0)?;
        append_indexed(alloc, out, core_byte(self.1), self.2)
    }
}

/// What is passed to a component: a name, a sort and an index.
impl<'a> Entry for (&'a str, ComponentExportKind, u32) {
    ghost use Rattle.comp_wire.specs.Table.{arguments};
    ghost use Rattle.comp_wire.specs.Values.{argument_row};

    ghost entry_row = { argument_row };

    ghost family = { arguments };

    fn append_entry(&self, alloc: Global, out: &mut Vec<u8>) -> Result<(), NoMemory> {
        append_text(alloc, out, self.0)?;
        append_sorted_index(alloc, out, self.1, self.2)
    }
}

/// An item of an instance: a name, a sort and an index.
impl<'a> Entry for (ComponentExternName<'a>, ComponentExportKind, u32) {
    ghost use Rattle.comp_wire.specs.Table.{bundle_exports};
    ghost use Rattle.comp_wire.specs.Values.{bundle_export_row};

    ghost entry_row = { bundle_export_row };

    ghost family = { bundle_exports };

    fn append_entry(&self, alloc: Global, out: &mut Vec<u8>) -> Result<(), NoMemory> {
        append_extern_text(alloc, out, self.0.name)?;
        append_sorted_index(alloc, out, self.1, self.2)
    }
}

/// The index of a value.
impl Entry for u32 {
    ghost use Rattle.comp_wire.specs.Table.{start_arguments};
    ghost use Rattle.comp_wire.specs.Values.{start_argument_row};

    ghost entry_row = { start_argument_row };

    ghost family = { start_arguments };

    fn append_entry(&self, alloc: Global, out: &mut Vec<u8>) -> Result<(), NoMemory> {
        uleb(alloc, out, *self)
    }
}

/// An option of a canonical function: its byte, and the index that it has.
impl Entry for CanonicalOption {
    ghost use Rattle.comp_wire.specs.Table.{options};
    ghost use Rattle.comp_wire.specs.Values.{option_row};

    ghost entry_row = { option_row };

    ghost family = { options };

    fn append_entry(&self, alloc: Global, out: &mut Vec<u8>) -> Result<(), NoMemory> {
        match *self {
            CanonicalOption::UTF8 => append_byte(out, 0x00),
            CanonicalOption::UTF16 => append_byte(out, 0x01),
            CanonicalOption::CompactUTF16 => append_byte(out, 0x02),
            CanonicalOption::Memory(index) => append_indexed(alloc, out, 0x03, index),
            CanonicalOption::Realloc(index) => append_indexed(alloc, out, 0x04, index),
            CanonicalOption::PostReturn(index) => append_indexed(alloc, out, 0x05, index),
            CanonicalOption::Async => append_byte(out, 0x06),
            CanonicalOption::Callback(index) => append_indexed(alloc, out, 0x07, index),
        }
    }
}
