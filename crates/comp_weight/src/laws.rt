//! The laws of weight. Each function does nothing; its contract is the law.
//!
//! In them `e` is an encoding by the formats, and `st` the stack of open scopes around a scope `s`, the innermost first, an empty list
//! for a whole component. The laws of items hold for every weight `weigh` of the fields of core modules.

ghost use Rattle.std.specs.Prelude.{◌≡◌, ℕ, ◌+◌, ◌*◌, ◌<◌, ◌≤◌, ◌^◌, List, [], ◌∷◌, length, true, Option, None};
ghost use Rattle.comp_model.specs.declared.Space.{Space};
ghost use Rattle.comp_model.specs.CoreModules.{CoreModule};
ghost use Rattle.comp_model.specs.Model.{Leaves, Scope, kind_of};
ghost use Rattle.comp_model.specs.declared.row.ScopeKind.TheVariants as kinds;
ghost use Rattle.comp_model.specs.declared.row.Row.{Row};
ghost use Rattle.comp_model.specs.Spaces.{declares_row};
ghost use Rattle.comp_model.specs.Origins.{Origin};
ghost use Rattle.comp_model.specs.Covered.{Uncovered, first_uncovered};
ghost use Rattle.comp_model.specs.Weight.{weight, weight_of_scope, weight_of_leaves};
ghost use Rattle.comp_wire.specs.Sections.{Item, groups, sections};
ghost use Rattle.comp_wire.specs.Short.{is_short};
ghost use Rattle.comp_wire.specs.Spelled.{spell_component};
ghost use Rattle.comp_wire.specs.Read.{FitsComponent};
ghost use Rattle.comp_wire.specs.declared.defs.WireDef.{WireDef};
ghost use Rattle.comp_wire.specs.declared.names.NameMaps.{NameMaps};
ghost use Rattle.comp_wire.specs.Definitions.{named_defs, component_of_defs};
ghost use Rattle.comp_scopes.specs.Encoding.{Encoding};
ghost use Rattle.comp_scopes.specs.Plan.{marks, before, counts};
ghost use Rattle.comp_scopes.specs.Form.{form};
ghost use Rattle.comp_scopes.specs.Rule.{ScopeRule};
ghost use Rattle.core_model.specs.Weight.{module_weight};
ghost use Rattle.comp_weight.specs.Cost.{apart, cost_scope};
ghost use Rattle.comp_weight.specs.Formats.{ByFormats};
ghost use Rattle.comp_weight.specs.FromText.{FromText};

/// The bytes of the form of a written component are at most eight times its weight, where that is below 2 ^ 32.
pub fn form_is_light()
    ensures { (e : Encoding) → ByFormats e → (s : Scope) → FromText s → 8 * weight module_weight s < 2 ^ 32 → length (spell_component (form e [] s)) ≤ 8 * weight module_weight s }
{}

/// Each count, index and length in the form of a written component is below 2 ^ 32, where eight times its weight is.
pub fn light_form_is_short()
    ensures { (e : Encoding) → ByFormats e → (s : Scope) → FromText s → 8 * weight module_weight s < 2 ^ 32 → is_short (form e [] s) ≡ true }
{}

/// The form of a component that meets the rule and holds no form which is read and never written can be written, where eight times its
/// weight is below 2 ^ 32; and so can the writers' definitions of it. Where core modules hold such forms is given.
pub fn light_form_fits()
    ensures form { (e : Encoding) → ByFormats e → (core_uncovered : CoreModule → Option Uncovered) (s : Scope) → FromText s → 8 * weight module_weight s < 2 ^ 32 → kind_of s ≡ kinds.Component → ScopeRule e [] s → first_uncovered core_uncovered s ≡ None → FitsComponent (form e [] s) }
    ensures definitions { (e : Encoding) → ByFormats e → (core_uncovered : CoreModule → Option Uncovered) (s : Scope) → FromText s → 8 * weight module_weight s < 2 ^ 32 → kind_of s ≡ kinds.Component → ScopeRule e [] s → first_uncovered core_uncovered s ≡ None
        → (ds : List WireDef) (names : NameMaps) → component_of_defs (named_defs ds names) ≡ form e [] s → FitsComponent (component_of_defs (named_defs ds names)) }
{}

/// The form of a component that holds no form which is read and never written holds none.
pub fn covered_form_is_covered()
    ensures { (core_uncovered : CoreModule → Option Uncovered) (e : Encoding) (st : List Scope) (s : Scope) → first_uncovered core_uncovered s ≡ None → first_uncovered core_uncovered (form e st s) ≡ None }
{}

/// Sixteen times the items of a space of a scope, generated ones with them, are at most the weight of the scope; so is each index
/// of a planned definition, and the parts of a definition are as few.
pub fn items_are_few()
    ensures counted { (weigh : CoreModule → ℕ) (st : List Scope) (s : Scope) (space : Space) → 16 * counts space (marks (s ∷ st)) ≤ weight_of_scope weigh s }
    ensures index { (weigh : CoreModule → ℕ) (st : List Scope) (s : Scope) (space : Space) (o : Origin) → 16 * before space o (marks (s ∷ st)) ≤ weight_of_scope weigh s }
    ensures parts { (weigh : CoreModule → ℕ) (t : Row) (ls : Leaves) → 16 * length (declares_row t ls) ≤ 16 + weight_of_leaves weigh ls }
{}

/// Neighbours that share a section take no more bytes than a section for each.
pub fn joining_costs_nothing()
    ensures { (items : List Item) → 5 + apart items < 2 ^ 32 → length (sections (groups items)) ≤ apart items }
{}

/// The bytes of a binary component are at most what its leaves and definitions cost, and what costs less than 2 ^ 32 is short.
pub fn bytes_are_cost()
    ensures bytes { (s : Scope) → cost_scope s < 2 ^ 32 → length (spell_component s) ≤ cost_scope s }
    ensures short { (s : Scope) → cost_scope s < 2 ^ 32 → is_short s ≡ true }
{}
