//! The sections of a component, from the last one to the first. Neighbours share a section; the one in front stays open until a definition
//! of another kind stands in front of it, and is closed by its count, its length and its number.

ghost use Rattle.std.specs.Prelude.{◌≡◌, ◌≤◌, List};
ghost use Rattle.comp_wire.specs.Sections.{Item, groups, sections};
ghost use Rattle.tree_write.specs.Kept.{Kept, put};
ghost use Rattle.tree_write.specs.OpenSection.{count_bytes, joins, Holds, Takes};

use crate::numbers::{close, write_unsigned};
use crate::sink::Sink;
use comp_wire::{SectionKind, has_count, section_number};

/// The section in front, while items are put into it.
#[derive(Clone, Copy)]
pub struct Open {
    /// Its kind; none before the first item.
    pub running: Option<SectionKind>,
    /// How many items it has.
    pub count: u64,
    /// How many bytes stand behind it.
    pub end: u64,
}

/// Whether an item of this kind joins the open section.
pub fn joins_open(running: Option<SectionKind>, kind: SectionKind) -> bool
    ensures { result ≡ joins running kind }
{
    match running {
        None => false,
        Some(open) => has_count(kind) && section_number(kind) == section_number(open),
    }
}

/// Writes the count of a section that has one.
#[tactic(auto, using(crate::proofs::Puts::put_none))]
fn write_count<S: Sink>(sink: &mut S, kind: SectionKind, count: u64)
    ensures { S.kept sink.new ≡ put (count_bytes kind count) (S.kept sink.old) }
{
    if has_count(kind) {
        write_unsigned(sink, count);
    }
}

/// Closes the open section.
pub fn close_section<S: Sink>(sink: &mut S, front: Open)
    ensures { (before : Kept) (items : List Item) → Holds before (S.kept sink.old) front items → S.kept sink.new ≡ put (sections (groups items)) before }
{
    match front.running {
        None => {}
        Some(kind) => {
            write_count(sink, kind, front.count);
            close(sink, front.end);
            sink.byte(section_number(kind));
        }
    }
}

/// Opens a section of this kind in front, unless the open one goes on.
pub fn begin<S: Sink>(sink: &mut S, front: Open, kind: SectionKind) -> Open
    ensures takes { (before : Kept) (items : List Item) → Holds before (S.kept sink.old) front items → Takes before (S.kept sink.new) result kind items }
    ensures few { result.count ≤ front.count }
{
    if joins_open(front.running, kind) {
        return front;
    }
    close_section(sink, front);
    Open {
        running: Some(kind),
        count: 0,
        end: sink.length(),
    }
}
