//! The kinds of sections.

ghost use Rattle.std.specs.Prelude.{◌≡◌};
ghost use Rattle.comp_wire.specs.Sections.{section_number, is_counted};

/// The kind of a section.
#[derive(Clone, Copy)]
pub enum SectionKind {
    /// Custom sections, of one item each.
    Custom,
    /// Core modules, one each.
    CoreModule,
    /// Core instances.
    CoreInstance,
    /// Core types.
    CoreType,
    /// Components, one each.
    Component,
    /// Instances.
    Instance,
    /// Aliases.
    Alias,
    /// Types.
    Type,
    /// Canonical functions.
    Canon,
    /// Start functions, one each.
    Start,
    /// Imports.
    Import,
    /// Exports.
    Export,
}

/// The number with which a section begins.
pub fn section_number(kind: SectionKind) -> u8
    ensures { result ≡ section_number kind }
{
    match kind {
        SectionKind::Custom => 0,
        SectionKind::CoreModule => 1,
        SectionKind::CoreInstance => 2,
        SectionKind::CoreType => 3,
        SectionKind::Component => 4,
        SectionKind::Instance => 5,
        SectionKind::Alias => 6,
        SectionKind::Type => 7,
        SectionKind::Canon => 8,
        SectionKind::Start => 9,
        SectionKind::Import => 10,
        SectionKind::Export => 11,
    }
}

/// Whether neighbours share the section, behind a count; another holds one item, without a count.
pub fn has_count(kind: SectionKind) -> bool
    ensures { result ≡ is_counted kind }
{
    match kind {
        SectionKind::Custom => false,
        SectionKind::CoreModule => false,
        SectionKind::Component => false,
        SectionKind::Start => false,
        _ => true,
    }
}
