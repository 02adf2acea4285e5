//! The laws of the binary form.

ghost use Rattle.std.specs.Prelude.{◌≡◌, ◌++◌, ℕ, List, map, length, true, Option, None, IsTrue, ◌↔◌};
ghost use Rattle.comp_model.specs.Binary.{IsBinary};
ghost use Rattle.comp_model.specs.Model.{Scope, Defs, kind_of};
ghost use Rattle.comp_model.specs.declared.row.ScopeKind.TheVariants as kinds;
ghost use Rattle.comp_model.specs.CoreModules.{CoreModule};
ghost use Rattle.comp_model.specs.Covered.{Uncovered, first_uncovered};
ghost use Rattle.comp_wire.specs.Short.{is_short};
ghost use Rattle.comp_model.specs.Rows.{FitsRows};
ghost use Rattle.comp_model.specs.RowNumbers.{canonical_rows};
ghost use Rattle.comp_model.specs.NameMaps.{NameMaps};
ghost use Rattle.comp_wire.specs.Table.{canon_lines};
ghost use Rattle.comp_model.specs.Payloads.{component_name_bytes, maps_bytes, name_payload};
ghost use Rattle.comp_wire.specs.Sections.{Item, item_by, group_by, groups, sections, preamble};
ghost use Rattle.comp_wire.specs.Spelled.{items_of, FitsSections};
ghost use Rattle.comp_wire.specs.Read.{FitsComponent, Reads};
ghost use Rattle.comp_wire.specs.Definitions.{component_of_defs};
ghost use Rattle.comp_wire.specs.Fits.{fits};

/// Bytes are read as at most one component.
pub fn bytes_read_once()
    ensures one_component { (bytes : List ℕ) (s t : Scope) → Reads bytes s → Reads bytes t → s ≡ t }
{}

/// A component has at most one list of bytes.
pub fn component_has_one_spelling()
    ensures one_spelling { (b c : List ℕ) (s : Scope) → Reads b s → Reads c s → b ≡ c }
{}

/// The test `fits` is true exactly where a component can be written.
pub fn fits_is_exact()
    ensures exact { (s : Scope) → IsTrue (fits s) ↔ FitsComponent s }
{}

/// What `ComponentSink::finish` gives for the items of definitions is read as the component of these definitions, where it can
/// be written.
pub fn written_bytes_are_read()
    ensures read { (ds : Defs) → FitsComponent (component_of_defs ds) → Reads (preamble ++ sections (groups (items_of ds))) (component_of_defs ds) }
{}

/// What bytes are read as is binary: its references are indices alone, and it has no ids, labels or inline exports. Each of its
/// definitions has a row of its scope, with the leaves of that row.
pub fn read_is_binary()
    ensures binary { (bytes : List ℕ) (s : Scope) → Reads bytes s → IsBinary s }
    ensures rows { (bytes : List ℕ) (s : Scope) → Reads bytes s → FitsRows s }
{}

/// Which items share a section hangs on the sections of the items alone: with the lengths of items in their places, the
/// sections hold the lengths of what they held.
pub fn sections_hang_on_no_item()
    ensures grouped { (is : List Item) → groups (map (item_by length) is) ≡ map (group_by length) (groups is) }
{}

/// The payload of a name section is its subsections, one behind the other.
pub fn names_stand_in_subsections()
    ensures parts { (n : NameMaps) → name_payload n ≡ component_name_bytes n.component ++ maps_bytes n.maps }
{}

/// The lines of the table for canonical functions are those of the rows in the one list of them, in its order.
pub fn canonical_lines_are_complete()
    ensures rows { map (λ l. l.tag) canon_lines ≡ canonical_rows }
{}

/// What the writers ask of a component's definitions and sections, part by part, is that it can be written and no more: each
/// count, length and index is below 2^32, and each leaf is what its field of the table of bytes spells.
pub fn writers_ask_no_more()
    ensures exact { (s : Scope) → FitsSections s ↔ FitsComponent s }
{}

/// A component can be written exactly where it fits the table of rows, is binary, has no form that is read and never written, and is
/// short, wherever core modules of a text are said to hold such forms.
pub fn short_rows_can_be_written()
    ensures fits { (core_uncovered : CoreModule → Option Uncovered) (s : Scope) → kind_of s ≡ kinds.Component → FitsRows s → IsBinary s → first_uncovered core_uncovered s ≡ None → is_short s ≡ true → FitsComponent s }
    ensures no_other { (core_uncovered : CoreModule → Option Uncovered) (s : Scope) → FitsComponent s → (kind_of s ≡ kinds.Component) × FitsRows s × IsBinary s × (first_uncovered core_uncovered s ≡ None) × (is_short s ≡ true) }
{}
