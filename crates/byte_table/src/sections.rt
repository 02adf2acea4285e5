//! The sections of a component, and which row stands in which (Component Model binary format, "Component Definitions").

ghost use Rattle.std.specs.Prelude.{◌≡◌, option_map};
ghost use Rattle.comp_model.specs.declared.row.Row.TheVariants as rows;
ghost use Rattle.comp_model.specs.RowNumbers.{same_row};
ghost use Rattle.byte_table.specs.Lines.{family_of};
ghost use Rattle.byte_table.specs.SectionKinds.{section_at, coded_section, line_rows};

use crate::line::Family;
use crate::table::line_of;
use comp_model::Row;
use comp_wire::SectionKind;

/// The rows of a section, whose lines are those of the table; none for that of a component, which has no line.
pub fn rows_in(kind: SectionKind) -> Option<Family>
    ensures { option_map family_of result ≡ line_rows kind }
{
    match kind {
        SectionKind::Custom => Some(Family::Customs),
        SectionKind::CoreModule => Some(Family::CoreModules),
        SectionKind::CoreInstance => Some(Family::CoreInstances),
        SectionKind::CoreType => Some(Family::CoreTypes),
        SectionKind::Component => None,
        SectionKind::Instance => Some(Family::Instances),
        SectionKind::Alias => Some(Family::Aliases),
        SectionKind::Type => Some(Family::Types),
        SectionKind::Canon => Some(Family::Canons),
        SectionKind::Start => Some(Family::Starts),
        SectionKind::Import => Some(Family::Imports),
        SectionKind::Export => Some(Family::Exports),
    }
}

/// The section of the rows whose lines are those of a family.
fn section_at(home: Family) -> SectionKind
    ensures { result ≡ section_at (family_of home) }
{
    match home {
        Family::Customs => SectionKind::Custom,
        Family::CoreModules => SectionKind::CoreModule,
        Family::CoreInstances => SectionKind::CoreInstance,
        Family::CoreTypes => SectionKind::CoreType,
        Family::Instances => SectionKind::Instance,
        Family::Aliases => SectionKind::Alias,
        Family::Canons => SectionKind::Canon,
        Family::Starts => SectionKind::Start,
        Family::Imports => SectionKind::Import,
        Family::Exports => SectionKind::Export,
        _ => SectionKind::Type,
    }
}

/// Whether this is the row of producers, which are written as a custom section.
pub fn is_producers(row: Row) -> bool
    ensures { result ≡ same_row row rows.Producers }
{
    match row {
        Row::Producers => true,
        _ => false,
    }
}

/// Whether this is the row of a component.
fn is_component(row: Row) -> bool
    ensures { result ≡ same_row row rows.Component }
{
    match row {
        Row::Component => true,
        _ => false,
    }
}

/// The section in which a definition stands.
#[tactic(auto, using(crate::proofs::ByHome::by_home))]
pub fn section_of_row(row: Row) -> SectionKind
    ensures { result ≡ coded_section row }
{
    if is_producers(row) {
        SectionKind::Custom
    } else if is_component(row) {
        SectionKind::Component
    } else {
        section_at(line_of(row).home)
    }
}
