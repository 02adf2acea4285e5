//! The laws of core modules. Each function does nothing; its contract is the law.

ghost use Rattle.std.specs.Prelude.{◌≡◌, ◌+◌, ◌*◌, ◌^◌, ◌<◌, ◌≤◌, true, List, length, None};
ghost use Rattle.comp_model.specs.Core.{Text};
ghost use Rattle.comp_model.specs.CoreModules.{Naming, Field, CoreModule};
ghost use Rattle.core_model.specs.Rule.{core_rule};
ghost use Rattle.core_model.specs.Bytes.{module_bytes};
ghost use Rattle.core_model.specs.Module.{core_bytes, module_with};
ghost use Rattle.core_model.specs.Weight.{weight_of_naming, module_weight, weight_alone};
ghost use Rattle.core_model.specs.Words.{FieldsWord};
ghost use Rattle.comp_model.specs.Renaming.{exchanged};
ghost use Rattle.core_model.specs.Resolved.{resolved_fields};
ghost use Rattle.core_model.specs.IsResolved.{are_resolved};

/// The exchange of two names, wherever they are declared or named, keeps the first broken rule and its offset; so a module that breaks
/// none breaks none.
pub fn exchange_keeps_rule()
    ensures { (a b : Text) (fs : List Field) → core_rule (exchanged a b fs) ≡ core_rule fs }
{}

/// The exchange of two names keeps the bytes without the name section.
pub fn exchange_keeps_bytes()
    ensures { (a b : Text) (fs : List Field) → module_bytes (exchanged a b fs) ≡ module_bytes fs }
{}

/// With each id and label, resolved fields have the bytes of the fields before, the name section among them.
pub fn resolving_keeps_bytes()
    ensures { (n : Naming) (fs : List Field) → core_bytes (module_with n (resolved_fields fs)) ≡ core_bytes (module_with n fs) }
{}

/// What is resolved holds no name, breaks no rule where the fields broke none, and is resolved to itself.
pub fn resolving_ends()
    ensures resolved { (fs : List Field) → are_resolved (resolved_fields fs) ≡ true }
    ensures accepted { (fs : List Field) → core_rule fs ≡ None → core_rule (resolved_fields fs) ≡ None }
    ensures unchanged { (fs : List Field) → are_resolved fs ≡ true → resolved_fields fs ≡ fs }
{}

/// The bytes of a core module are at most eight times its weight, where its numerals are below `2 ^ 32` and its constants within their
/// bits. Its own id and label are written once at most, in its name section; so one that stands in a component, whose definition
/// weighs with these, takes at most eight times the weight of its leaf, and they once.
pub fn bytes_within_weight()
    ensures alone { (m : CoreModule) → FieldsWord m.fields → 8 * weight_alone m < 2 ^ 32 → length (core_bytes m) ≤ 8 * weight_alone m }
    ensures held { (m : CoreModule) → FieldsWord m.fields → 8 * (32 + module_weight m) + weight_of_naming m.naming < 2 ^ 32 → length (core_bytes m) ≤ 8 * (32 + module_weight m) + weight_of_naming m.naming }
{}
