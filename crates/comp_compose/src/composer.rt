//! The lines of a plan, put one behind the other.

ghost use Rattle.std.specs.Prelude.{◌≡◌, ◌+◌, ◌-◌, ◌<◌, ◌≤◌, ◌^◌, ◌++◌, ◌∷◌, [], ℕ, List, length, IfOk, OnOk, Some};
ghost use Rattle.comp_model.specs.Model.{Defs};
ghost use Rattle.comp_wire.specs.Definitions.{component_of_defs};
ghost use Rattle.comp_wire.specs.Read.{Reads};
ghost use Rattle.comp_wire.specs.declared.sections.SectionKind.TheVariants as section_kinds;
ghost use Rattle.comp_wire.specs.Sections.{Item as Written, item, groups, sections, preamble};
ghost use Rattle.comp_wire.specs.Sink.{bulk};
ghost use Rattle.comp_wire.specs.Spelled.{item_of_def, FitsDefinition};
ghost use Rattle.plan_lines.specs.Lines as plan;
ghost use Rattle.plan_lines.specs.Lines.{Line as Read, Argument, a_part, an_instance, an_export};
ghost use Rattle.plan_lines.specs.Shown.{word_of, rest_of, line_of, span, SpansBelow, WordsWithin};
ghost use Rattle.comp_compose.specs.Composing.{Composing, Added};
ghost use Rattle.comp_compose.specs.Composed.{AreDefinitions};
ghost use Rattle.comp_compose.specs.Passed.{instance_def, export_def};
ghost use Rattle.comp_compose.specs.Shown.{Adds};
ghost use Rattle.comp_compose.specs.Weights.{Takes};
ghost use Rattle.comp_compose.specs.declared.names.Item.TheVariants.{Component, Instance};
ghost use Rattle.comp_compose.specs.Refused.{plan_limit};
ghost use Rattle.comp_compose.specs.Written.{Writes};

use crate::arguments::{passed_to, text_of};
use crate::demands::{expect_new, find_instance, part_bytes};
use crate::error::{PlanError, no_memory};
use crate::names::{Item, Names};
use crate::writer::Writer;
use comp_wire::{ComponentExportKind, ComponentExternName, NoMemory, Seq, WireDef};
use plan_lines::{Line, Word, read_line};
use std::alloc::Global;

/// The names of the lines so far, and what is written of them.
#[derive(Drop)]
pub struct Composer<'p> {
    alloc: Global,
    names: Names<'p>,
    /// How many components there are.
    components: u32,
    /// How many instances there are.
    instances: u32,
    writer: Writer,
}

/// Writes an instance: a component, and what is passed to it.
fn put_instance(
    writer: &mut Writer,
    component: u32,
    passed: Vec<(&str, ComponentExportKind, u32)>,
) -> Result<(), NoMemory>
    requires fits { FitsDefinition (instance_def component passed.items) }
    requires room { (items : List Written) × Writes writer.old items × (bulk items + (length (item_of_def (instance_def component passed.items)).content + 1) < 2 ^ 32) }
    ensures { (items : List Written) → Writes writer.old items → OnOk result (Writes writer.new (items ++ item_of_def (instance_def component passed.entry.items) ∷ [])) }
{
    writer.put(&WireDef::Instantiate {
        component,
        args: Seq::from_vec(passed),
    })
}

/// Writes an export of an instance.
fn put_export(writer: &mut Writer, name: &str, instance: u32) -> Result<(), NoMemory>
    requires fits { FitsDefinition (export_def name.now instance) }
    requires room { (items : List Written) × Writes writer.old items × (bulk items + (length (item_of_def (export_def name.now instance)).content + 1) < 2 ^ 32) }
    ensures { (items : List Written) → Writes writer.old items → OnOk result (Writes writer.new (items ++ item_of_def (export_def name.now instance) ∷ [])) }
{
    writer.put(&WireDef::Export {
        name: ComponentExternName { name },
        ty: None,
        kind: ComponentExportKind::Instance,
        index: instance,
    })
}

impl<'p> Composer<'p> {
    /// A composer of no line.
    pub fn new(alloc: Global) -> Result<Composer<'p>, NoMemory>
        ensures { IfOk result (λ c. Composing c [] 0) }
    {
        let writer = Writer::new(alloc)?;
        Ok(Composer {
            alloc,
            names: Names::new(alloc),
            components: 0,
            instances: 0,
            writer,
        })
    }

    /// Writes a component, and notes its name.
    fn put_component(&mut self, name: &'p [u8], bytes: &[u8]) -> Result<(), NoMemory>
        requires number { self.old.components < 2 ^ 32 - 1 }
        requires room { (items : List Written) × Writes self.old.writer items × (bulk items + (length bytes.now + 1) < 2 ^ 32) }
        ensures written { (items : List Written) → Writes self.old.writer items → OnOk result (Writes self.new.writer (items ++ item section_kinds.Component bytes.now ∷ [])) }
        ensures named { OnOk result (Adds self.old.names self.new.names name.entry.now (Component self.old.components)) }
        ensures components { OnOk result (self.new.components ≡ self.old.components + 1) }
        ensures instances { OnOk result (self.new.instances ≡ self.old.instances) }
    {
        self.writer.put_component(bytes)?;
        self.names.add(name, Item::Component(self.components))?;
        self.components += 1;
        Ok(())
    }

    /// Writes an instance, and notes its name.
    fn put_instance(
        &mut self,
        name: &'p [u8],
        component: u32,
        passed: Vec<(&str, ComponentExportKind, u32)>,
    ) -> Result<(), NoMemory>
        requires number { self.old.instances < 2 ^ 32 - 1 }
        requires fits { FitsDefinition (instance_def component passed.items) }
        requires room { (items : List Written) × Writes self.old.writer items × (bulk items + (length (item_of_def (instance_def component passed.items)).content + 1) < 2 ^ 32) }
        ensures written { (items : List Written) → Writes self.old.writer items → OnOk result (Writes self.new.writer (items ++ item_of_def (instance_def component passed.entry.items) ∷ [])) }
        ensures named { OnOk result (Adds self.old.names self.new.names name.entry.now (Instance self.old.instances)) }
        ensures components { OnOk result (self.new.components ≡ self.old.components) }
        ensures instances { OnOk result (self.new.instances ≡ self.old.instances + 1) }
    {
        let index = self.instances;
        put_instance(&mut self.writer, component, passed)?;
        self.names.add(name, Item::Instance(index))?;
        self.instances = index + 1;
        Ok(())
    }

    /// Writes an export, which declares an instance too.
    fn put_export(&mut self, name: &str, instance: u32) -> Result<(), NoMemory>
        requires number { self.old.instances < 2 ^ 32 - 1 }
        requires fits { FitsDefinition (export_def name.now instance) }
        requires room { (items : List Written) × Writes self.old.writer items × (bulk items + (length (item_of_def (export_def name.now instance)).content + 1) < 2 ^ 32) }
        ensures written { (items : List Written) → Writes self.old.writer items → OnOk result (Writes self.new.writer (items ++ item_of_def (export_def name.now instance) ∷ [])) }
        ensures named { OnOk result (self.new.names ≡ self.old.names) }
        ensures components { OnOk result (self.new.components ≡ self.old.components) }
        ensures instances { OnOk result (self.new.instances ≡ self.old.instances + 1) }
    {
        put_export(&mut self.writer, name, instance)?;
        self.instances += 1;
        Ok(())
    }

    /// Adds the line of a part.
    fn add_part(&mut self, name: Word<'p>, digits: Word<'p>) -> Result<(), PlanError>
        requires { (ls : List Read) × (spent : ℕ) × (n : ℕ) × Composing self.old ls spent × Takes (a_part (word_of name) (word_of digits)) n × (spent + n ≤ plan_limit) }
        ensures { (ls : List Read) (spent n : ℕ) → Composing self.old ls spent → Takes (a_part (word_of name.entry) (word_of digits.entry)) n → spent + n ≤ plan_limit → Added self.new ls (a_part (word_of name.entry) (word_of digits.entry)) (spent + n) result }
    {
        match expect_new(&self.names, &name) {
            Ok(()) => match part_bytes(self.alloc, &digits) {
                Ok(bytes) => match self.put_component(name.bytes, bytes.as_slice()) {
                    Ok(()) => Ok(()),
                    Err(_) => Err(no_memory()),
                },
                Err(refusal) => Err(refusal),
            },
            Err(refusal) => Err(refusal),
        }
    }

    /// Adds the line of an instance.
    fn add_instance(
        &mut self,
        name: Word<'p>,
        part: Word<'p>,
        arguments: Option<Word<'p>>,
    ) -> Result<(), PlanError>
        requires spans { SpansBelow arguments (2 ^ 64) }
        requires room { (ls : List Read) × (spent : ℕ) × (n : ℕ) × (as' : List Argument) × Composing self.old ls spent × (plan.arguments (rest_of 32 arguments) ≡ Some as') × Takes (an_instance (word_of name) (word_of part) as') n × (spent + n ≤ plan_limit) }
        ensures { (ls : List Read) (spent n : ℕ) (as' : List Argument) → Composing self.old ls spent → plan.arguments (rest_of 32 arguments.entry) ≡ Some as' → Takes (an_instance (word_of name.entry) (word_of part.entry) as') n → spent + n ≤ plan_limit → Added self.new ls (an_instance (word_of name.entry) (word_of part.entry) as') (spent + n) result }
    {
        match expect_new(&self.names, &name) {
            Ok(()) => match passed_to(self.alloc, &self.names, part, arguments) {
                Ok((component, passed)) => match self.put_instance(name.bytes, component, passed) {
                    Ok(()) => Ok(()),
                    Err(_) => Err(no_memory()),
                },
                Err(refusal) => Err(refusal),
            },
            Err(refusal) => Err(refusal),
        }
    }

    /// Adds the line of an export.
    fn add_export(&mut self, text: Word<'p>, instance: Word<'p>) -> Result<(), PlanError>
        requires { (ls : List Read) × (spent : ℕ) × (n : ℕ) × Composing self.old ls spent × Takes (an_export (word_of text) (word_of instance)) n × (spent + n ≤ plan_limit) }
        ensures { (ls : List Read) (spent n : ℕ) → Composing self.old ls spent → Takes (an_export (word_of text.entry) (word_of instance.entry)) n → spent + n ≤ plan_limit → Added self.new ls (an_export (word_of text.entry) (word_of instance.entry)) (spent + n) result }
    {
        match find_instance(&self.names, &instance) {
            Ok(index) => match self.put_export(text_of(&text), index) {
                Ok(()) => Ok(()),
                Err(_) => Err(no_memory()),
            },
            Err(refusal) => Err(refusal),
        }
    }

    /// Adds what a line says.
    fn add(&mut self, said: Line<'p>) -> Result<(), PlanError>
        requires spans { (m : ℕ) × WordsWithin said m × (m < 2 ^ 64) }
        requires room { (ls : List Read) × (spent : ℕ) × (n : ℕ) × (l : Read) × Composing self.old ls spent × (line_of said ≡ Some l) × Takes l n × (spent + n ≤ plan_limit) }
        ensures { (ls : List Read) (spent n : ℕ) (l : Read) → Composing self.old ls spent → line_of said.entry ≡ Some l → Takes l n → spent + n ≤ plan_limit → Added self.new ls l (spent + n) result }
    {
        match said {
            Line::Part { name, digits } => self.add_part(name, digits),
            Line::Instance {
                name,
                part,
                arguments,
            } => self.add_instance(name, part, arguments),
            Line::Export { text, instance } => self.add_export(text, instance),
        }
    }

    /// Adds a line.
    pub fn add_line(&mut self, line: Word<'p>) -> Result<(), PlanError>
        requires spans { span line < 2 ^ 64 }
        requires room { (ls : List Read) × (spent : ℕ) × (l : Read) × Composing self.old ls spent × (plan.line (word_of line) ≡ Some l) × (spent + length line.bytes.now ≤ plan_limit) }
        ensures { (ls : List Read) (spent : ℕ) (l : Read) → Composing self.old ls spent → plan.line (word_of line.entry) ≡ Some l → spent + length line.entry.bytes.now ≤ plan_limit → Added self.new ls l (spent + length line.entry.bytes.now) result }
    {
        match read_line(line) {
            Some(said) => self.add(said),
            None => unreachable!(),
        }
    }

    /// The bytes of the component of the lines.
    pub fn finish(self) -> Result<Vec<u8>, NoMemory>
        requires { (ls : List Read) × (spent : ℕ) × Composing self ls spent × (spent ≤ plan_limit) }
        ensures { (ls : List Read) (spent : ℕ) → Composing self.entry ls spent → spent ≤ plan_limit → IfOk result (λ v. (ds : Defs) × AreDefinitions [] ls ds × Reads v.items (component_of_defs ds)) }
    {
        self.writer.finish()
    }
}
