//! The bytes of a component whose definitions are put one behind the other, some of them as they are written already.

ghost use Rattle.std.specs.Prelude.{◌≡◌, ◌+◌, ◌-◌, ◌<◌, ◌≤◌, ◌^◌, ◌++◌, ◌∷◌, [], List, length, take, drop, IfOk, OnOk};
ghost use Rattle.comp_model.specs.Payloads.{framed};
ghost use Rattle.comp_wire.specs.declared.sections.SectionKind.TheVariants as section_kinds;
ghost use Rattle.comp_wire.specs.Sections.{Item, item, groups, sections, preamble, Word};
ghost use Rattle.comp_wire.specs.Sink.{Holds, IsShort, bulk};
ghost use Rattle.comp_wire.specs.Spelled.{item_of_def, FitsDefinition};
ghost use Rattle.comp_wire.specs.Definitions.{def_of};
ghost use Rattle.comp_compose.specs.Written.{Writes};

use comp_wire::{ComponentSink, NoMemory, WireDef, uleb};
use std::alloc::Global;
use std::mem;

/// Sections that are closed, and the definitions behind them.
#[derive(Drop)]
pub struct Writer {
    alloc: Global,
    /// The preamble and the closed sections.
    done: Vec<u8>,
    /// The definitions behind the last part.
    run: ComponentSink,
}

/// Appends bytes.
fn append(out: &mut Vec<u8>, bytes: &[u8]) -> Result<(), NoMemory>
    ensures { OnOk result (out.new.items ≡ out.old.items ++ bytes.now) }
{
    match out.extend_from_slice(bytes) {
        Ok(()) => Ok(()),
        Err(_) => Err(NoMemory),
    }
}

/// Appends the section of a component: its number, its length and the component's bytes.
fn append_component(alloc: Global, out: &mut Vec<u8>, bytes: &[u8]) -> Result<(), NoMemory>
    requires { Word (length bytes.now) }
    ensures { OnOk result (out.new.items ≡ out.old.items ++ 4 ∷ framed bytes.now) }
{
    append(out, &[4])?;
    uleb(alloc, out, bytes.len() as u32)?;
    append(out, bytes)
}

/// The bytes that a component without definitions has.
fn begin(alloc: Global) -> Result<Vec<u8>, NoMemory>
    ensures { IfOk result (λ v. v.items ≡ preamble) }
{
    let run = ComponentSink::new(alloc)?;
    run.finish()
}

/// What stands behind the preamble.
fn behind_preamble(bytes: &[u8]) -> &[u8]
    requires { 8 ≤ length bytes.now }
    ensures { result.now ≡ take (length bytes.now - 8) (drop 8 bytes.now) }
{
    &bytes[8..]
}

/// Appends the sections of definitions.
fn append_run(out: &mut Vec<u8>, run: ComponentSink) -> Result<(), NoMemory>
    requires short { IsShort run }
    requires held { (items : List Item) × Holds run items }
    ensures { (items : List Item) → Holds run items → OnOk result (out.new.items ≡ out.old.items ++ sections (groups items)) }
{
    let bytes = run.finish()?;
    append(out, behind_preamble(bytes.as_slice()))
}

impl Writer {
    /// A writer that holds nothing.
    pub fn new(alloc: Global) -> Result<Writer, NoMemory>
        ensures { IfOk result (λ w. Writes w []) }
    {
        let done = begin(alloc)?;
        let run = ComponentSink::new(alloc)?;
        Ok(Writer { alloc, done, run })
    }

    /// Adds a definition behind the others. They must weigh less than 2^32 together.
    pub fn put(&mut self, def: &WireDef<'_>) -> Result<(), NoMemory>
        requires fits { FitsDefinition (def_of def.now) }
        requires room { (items : List Item) × Writes self.old items × (bulk items + (length (item_of_def (def_of def.now)).content + 1) < 2 ^ 32) }
        ensures { (items : List Item) → Writes self.old items → OnOk result (Writes self.new (items ++ item_of_def (def_of def.now) ∷ [])) }
    {
        self.run.put(def)
    }

    /// Adds a component, whose bytes are these, behind the other definitions.
    pub fn put_component(&mut self, bytes: &[u8]) -> Result<(), NoMemory>
        requires room { (items : List Item) × Writes self.old items × (bulk items + (length bytes.now + 1) < 2 ^ 32) }
        ensures { (items : List Item) → Writes self.old items → OnOk result (Writes self.new (items ++ item section_kinds.Component bytes.now ∷ [])) }
    {
        let run = mem::replace(&mut self.run, ComponentSink::new(self.alloc)?);
        append_run(&mut self.done, run)?;
        append_component(self.alloc, &mut self.done, bytes)
    }

    /// The bytes of the component of the definitions.
    pub fn finish(self) -> Result<Vec<u8>, NoMemory>
        requires room { (items : List Item) × Writes self items × (bulk items < 2 ^ 32) }
        ensures { (items : List Item) → Writes self items → IfOk result (λ v. v.items ≡ preamble ++ sections (groups items)) }
    {
        let mut done = self.done;
        append_run(&mut done, self.run)?;
        Ok(done)
    }
}
