//! The sink that writes a component, definition by definition.
//!
//! Definitions come in their order; neighbours of one counted kind share a section. The open section is kept apart until
//! a definition of another kind closes it, since its length stands before it.

ghost use Rattle.std.specs.Prelude.{◌≡◌, ◌≢◌, ℕ, ◌+◌, ◌<◌, ◌^◌, List, [], ◌∷◌, ◌++◌, length, IfOk, OnOk, Some, false, true};
ghost use Rattle.comp_model.specs.Leb.{uleb as unsigned_bytes};
ghost use Rattle.comp_model.specs.Payloads.{framed, name_payload};
ghost use Rattle.comp_wire.specs.declared.sections.SectionKind.TheVariants as section_kinds;
ghost use Rattle.comp_wire.specs.Sections.{Item, item, groups, sections, preamble, section_number, Word};
ghost use Rattle.comp_wire.specs.Spelled.{item_of_def, items_of, spell_component, FitsDefinition, FitsSections};
ghost use Rattle.comp_wire.specs.Read.{FitsComponent, Reads};
ghost use Rattle.comp_wire.specs.NameSection.{maps_of, name_definition};
ghost use Rattle.comp_wire.specs.Definitions.{def_of, component_of_defs, named_defs};
ghost use Rattle.comp_wire.specs.declared.defs.WireDef.{WireDef};
ghost use Rattle.comp_wire.specs.declared.names.NameMaps.{NameMaps};
ghost use Rattle.comp_wire.specs.Sink.{Holds, IsShort, CanPut, Takes, joins, body_of};

use crate::append::{append, append_byte, append_framed};
use crate::append_canon::append_canon;
use crate::append_defs::{append_custom, append_export, append_import, append_start, section_of};
use crate::append_externs::append_alias;
use crate::append_lists::{append_indexed_list, append_list_behind};
use crate::append_names::name_bytes;
use crate::append_types::{append_core_type, append_type};
use crate::defs::WireDef;
use crate::leb::uleb;
use crate::memory::NoMemory;
use crate::names::NameMaps;
use crate::sections::{SectionKind, has_count, section_number};
use std::alloc::Global;

/// The bytes of a component, as far as it has been put.
#[derive(Drop)]
pub struct ComponentSink {
    alloc: Global,
    /// The preamble and the closed sections.
    done: Vec<u8>,
    /// The kind of the open section; none before the first definition.
    running: Option<SectionKind>,
    /// How many items the open section has.
    count: u32,
    /// The items of the open section.
    body: Vec<u8>,
}

/// The bytes that a component begins with.
fn begin(alloc: Global) -> Result<Vec<u8>, NoMemory>
    ensures { IfOk result (λ v. v.items ≡ preamble) }
{
    let mut done = Vec::new(alloc);
    append(&mut done, &[0x00, 0x61, 0x73, 0x6d, 0x0d, 0x00, 0x01, 0x00])?;
    Ok(done)
}

/// How many bytes the unsigned LEB128 of a number has.
fn uleb_length(value: u32) -> usize
    ensures length { result ≡ length (unsigned_bytes value) }
    ensures short { result < 6 }
{
    if value < 128 {
        return 1;
    }
    if value < 16384 {
        return 2;
    }
    if value < 2097152 {
        return 3;
    }
    if value < 268435456 {
        return 4;
    }
    5
}

/// Whether an item of this kind joins the open section.
fn joins_open(running: Option<SectionKind>, kind: SectionKind) -> bool
    ensures { result ≡ joins running kind }
{
    match running {
        None => false,
        Some(open) => has_count(open) && section_number(open) == section_number(kind),
    }
}

/// Appends a section: its number, its length, its count where it has one, and its items.
fn append_section(
    alloc: Global,
    out: &mut Vec<u8>,
    kind: SectionKind,
    count: u32,
    items: &[u8],
) -> Result<(), NoMemory>
    requires { Word (length (body_of kind count items.now)) }
    ensures { OnOk result (out.new.items ≡ out.old.items ++ section_number kind ∷ framed (body_of kind count items.now)) }
{
    append_byte(out, section_number(kind))?;
    if has_count(kind) {
        return append_counted(alloc, out, count, items);
    }
    append_framed(alloc, out, items)
}

/// Appends a length, a count, and so many items.
fn append_counted(
    alloc: Global,
    out: &mut Vec<u8>,
    count: u32,
    items: &[u8],
) -> Result<(), NoMemory>
    requires { Word (length (unsigned_bytes count ++ items.now)) }
    ensures { OnOk result (out.new.items ≡ out.old.items ++ framed (unsigned_bytes count ++ items.now)) }
{
    let length = uleb_length(count) + items.len();
    uleb(alloc, out, length as u32)?;
    uleb(alloc, out, count)?;
    append(out, items)
}

/// Appends a definition, as it stands in its section.
#[cycle(put)]
fn append_definition(alloc: Global, out: &mut Vec<u8>, def: &WireDef) -> Result<(), NoMemory>
    requires { FitsDefinition (def_of def.now) }
    ensures { OnOk result (out.new.items ≡ out.old.items ++ (item_of_def (def_of def.now)).content) }
{
    match def {
        WireDef::CoreModule(bytes) => append(out, bytes.as_slice()),
        WireDef::CoreInstantiate { module, args } => append_indexed_list(
            alloc, out, 0x00, *module, args,
        ),
        WireDef::CoreBundle { exports } => append_list_behind(alloc, out, 0x01, exports),
        WireDef::CoreType(ty) => append_core_type(alloc, out, ty),
        WireDef::Component { defs, names } => append_component(alloc, out, defs.as_slice(), names),
        WireDef::Instantiate { component, args } => append_indexed_list(
            alloc, out, 0x00, *component, args,
        ),
        WireDef::Bundle { exports } => append_list_behind(alloc, out, 0x01, exports),
        WireDef::Alias(alias) => append_alias(alloc, out, alias),
        WireDef::Ty(ty) => append_type(alloc, out, ty),
        WireDef::Canon(canon) => append_canon(alloc, out, canon),
        WireDef::Start {
            func,
            args,
            results,
        } => append_start(alloc, out, *func, args, *results),
        WireDef::Import { name, ty } => append_import(alloc, out, name.name, *ty),
        WireDef::Export {
            name,
            ty,
            kind,
            index,
        } => append_export(alloc, out, name.name, *ty, *kind, *index),
        WireDef::Custom { name, payload } => append_custom(alloc, out, name, payload.as_slice()),
    }
}

/// Appends the bytes of a component.
#[cycle(put)]
fn append_component(
    alloc: Global,
    out: &mut Vec<u8>,
    defs: &[WireDef],
    names: &NameMaps,
) -> Result<(), NoMemory>
    requires { FitsSections (component_of_defs (named_defs defs.now names.now)) }
    ensures { OnOk result (out.new.items ≡ out.old.items ++ spell_component (component_of_defs (named_defs defs.now names.now))) }
{
    let mut sink = ComponentSink::new(alloc)?;
    for def in defs {
        sink.put(def)?;
    }
    sink.names(names)?;
    let bytes = sink.finish()?;
    append(out, bytes.as_slice())
}

impl ComponentSink {
    /// A sink that holds nothing: the preamble alone.
    pub fn new(alloc: Global) -> Result<ComponentSink, NoMemory>
        ensures empty { IfOk result (λ s. Holds s []) }
    {
        let done = begin(alloc)?;
        Ok(ComponentSink {
            alloc,
            done,
            running: None,
            count: 0,
            body: Vec::new(alloc),
        })
    }

    /// Writes the open section behind the closed ones.
    fn flush(&mut self) -> Result<(), NoMemory>
        requires { IsShort self.old }
        ensures { (items : List Item) → Holds self.old items → OnOk result (self.new.done.items ≡ preamble ++ sections (groups items)) }
    {
        match self.running {
            None => Ok(()),
            Some(kind) => append_section(
                self.alloc,
                &mut self.done,
                kind,
                self.count,
                self.body.as_slice(),
            ),
        }
    }

    /// Opens a section of this kind, unless an open one goes on.
    fn open(&mut self, kind: SectionKind) -> Result<(), NoMemory>
        requires { CanPut self.old kind }
        ensures room { OnOk result (self.new.count + 1 < 2 ^ 32) }
        ensures takes { (items : List Item) → Holds self.old items → OnOk result (Takes self.new kind items) }
    {
        if joins_open(self.running, kind) {
            return Ok(());
        }
        self.flush()?;
        self.running = Some(kind);
        self.count = 0;
        self.body.clear();
        Ok(())
    }

    /// Adds a definition behind those put before. Neighbours of one counted kind share a section.
    ///
    /// Each count and length that is written must be below 2^32, those of the section that the definition closes or joins
    /// included, and the declarations of a type must be of its kind. After a refusal the sink can only be dropped.
    ///
    /// That there is room is shown by `light_can_put` of `proofs/Room.antt`, where the definitions are few and short enough
    /// in all, or by `can_put` of `proofs/Steps.antt`, where the sections of the whole component are known to be short.
    #[cycle(put)]
    pub fn put<'a>(&mut self, def: &WireDef<'a>) -> Result<(), NoMemory>
        requires fits { FitsDefinition (def_of def.now) }
        requires room { CanPut self.old (item_of_def (def_of def.now)).section }
        ensures { (items : List Item) → Holds self.old items → OnOk result (Holds self.new (items ++ item_of_def (def_of def.now) ∷ [])) }
    {
        self.open(section_of(def))?;
        append_definition(self.alloc, &mut self.body, def)?;
        self.count += 1;
        Ok(())
    }

    /// Adds a custom section.
    fn put_custom(&mut self, name: &str, payload: &[u8]) -> Result<(), NoMemory>
        requires name { Word (length name.now) }
        requires room { CanPut self.old section_kinds.Custom }
        ensures { (items : List Item) → Holds self.old items → OnOk result (Holds self.new (items ++ item section_kinds.Custom (framed name.now ++ payload.now) ∷ [])) }
    {
        self.open(SectionKind::Custom)?;
        append_custom(self.alloc, &mut self.body, name, payload)?;
        self.count += 1;
        Ok(())
    }

    /// Adds the name section, where there is a name: the name of the component, and those of its items.
    ///
    /// What the section holds must be shorter than 2^32 bytes, as must the section that it closes. After a refusal the
    /// sink can only be dropped.
    pub fn names(&mut self, names: &NameMaps<'_>) -> Result<(), NoMemory>
        requires short { Word (length (name_payload (maps_of names.now))) }
        requires room { name_payload (maps_of names.now) ≢ [] → CanPut self.old section_kinds.Custom }
        ensures { (items : List Item) → Holds self.old items → OnOk result (Holds self.new (items ++ items_of (name_definition (maps_of names.now)))) }
    {
        let payload = name_bytes(self.alloc, names)?;
        if payload.len() == 0 {
            return Ok(());
        }
        self.put_custom("component-name", payload.as_slice())
    }

    /// The bytes of the component: those that the binary format gives to the definitions put, in their order.
    ///
    /// The open section must be shorter than 2^32 bytes, as `light_can_finish` of `proofs/Room.antt` and `short_at_end` of
    /// `proofs/Steps.antt` show of the same definitions. Where the sink holds the items of these definitions and of the name
    /// section of these names, and they can be written, the bytes are read as the component of these definitions and names.
    pub fn finish(self) -> Result<Vec<u8>, NoMemory>
        requires short { IsShort self }
        ensures bytes { (items : List Item) → Holds self items → IfOk result (λ v. v.items ≡ preamble ++ sections (groups items)) }
        ensures reads { (defs : List WireDef) (names : NameMaps) → Holds self (items_of (named_defs defs names)) → FitsComponent (component_of_defs (named_defs defs names)) → IfOk result (λ v. Reads v.items (component_of_defs (named_defs defs names))) }
    {
        self.closed()
    }

    /// The closed sections and the open one.
    fn closed(self) -> Result<Vec<u8>, NoMemory>
        requires short { IsShort self }
        ensures { (items : List Item) → Holds self items → IfOk result (λ v. v.items ≡ preamble ++ sections (groups items)) }
    {
        let mut sink = self;
        sink.flush()?;
        Ok(sink.done)
    }
}
