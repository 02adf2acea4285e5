//! What the table makes of the fields of a core module is what their tree stands for. Each function does nothing; its contract is the law.

ghost use Rattle.std.specs.Prelude.{◌≡◌, true, List, Option, None};
ghost use Rattle.std.specs.List.{list_all};
ghost use Rattle.comp_model.specs.Model.{core_source};
ghost use Rattle.core_model.specs.Module.{module_with};
ghost use Rattle.core_model.specs.Words.{FieldsWord};
ghost use Rattle.wast_grammar.specs.Stand.{Stand};
ghost use Rattle.wast_grammar.specs.Read.{read, reads as is_read};
ghost use Rattle.wast_grammar.specs.Spells.{Spells};
ghost use Rattle.wast_grammar.specs.CoreRows.{field_groups};
ghost use Rattle.wast_parser.specs.View.{many_view};
ghost use Rattle.wast_parser.specs.declared.index.Id.{Id};
ghost use Rattle.wast_parser.specs.declared.texts.NameAnnotation.{NameAnnotation};
ghost use Rattle.core_syntax.specs.Ids.{option_id};
ghost use Rattle.core_syntax.specs.Fields.{label_of, naming_of, fields_of};
ghost use Rattle.core_syntax.specs.CoreView.{field_group_view};
ghost use Rattle.core_syntax.specs.declared.fields.ModuleField.{ModuleField};
ghost use Rattle.text_rules.specs.Rule.{reads, outside, core_fields, some_core_fields};
ghost use Rattle.text_rules.specs.Made.{owned};
ghost use Rattle.text_rules.specs.Makes.{makes, a_leaf};
ghost use Rattle.text_rules.specs.CoreMade.{core_module_of};
ghost use Rattle.core_made.specs.HasText.{has_text};

/// What is made of the view of fields, each of which a text can spell, is a core module without names of the fields that they stand for. Numerals and
/// constants are within their bits, as the types of a tree have them. The definition of the module gives it its id and its label.
pub fn made_is_meant()
    ensures fields { (fs : List ModuleField) → list_all has_text fs ≡ true → FieldsWord (fields_of fs) → core_module_of (many_view field_group_view fs) ≡ module_with (record { id = None; label = None }) (fields_of fs) }
    ensures named { (id : Option Id) (label : Option NameAnnotation) (fs : List ModuleField) → list_all has_text fs ≡ true → FieldsWord (fields_of fs) → owned (option_id id) (label_of label) (core_source (core_module_of (many_view field_group_view fs))) ≡ core_source (module_with (naming_of id label) (fields_of fs)) }
{}

/// So it is of all fields that a text spells or that reading by their row gives: those of a module, and those of a text that is its fields alone.
pub fn made_of_text_is_meant()
    ensures module_fields { (s t : Stand) (fs : List ModuleField) → Spells (reads (outside core_fields)) s t (many_view field_group_view fs) → FieldsWord (fields_of fs) → makes (many_view field_group_view fs) (outside core_fields) ≡ a_leaf (core_source (module_with (record { id = None; label = None }) (fields_of fs))) }
    ensures fields_alone { (s t : Stand) (fs : List ModuleField) → Spells (reads (outside some_core_fields)) s t (many_view field_group_view fs) → FieldsWord (fields_of fs) → makes (many_view field_group_view fs) (outside some_core_fields) ≡ a_leaf (core_source (module_with (record { id = None; label = None }) (fields_of fs))) }
    ensures read { (s t : Stand) (fs : List ModuleField) → read field_groups s ≡ is_read (many_view field_group_view fs) t → FieldsWord (fields_of fs) → core_module_of (many_view field_group_view fs) ≡ module_with (record { id = None; label = None }) (fields_of fs) }
{}
