//! The law from the weight of a core module to what can be written. Each function does nothing; its contract is the law.

ghost use Rattle.std.specs.Prelude.{◌≤◌, List};
ghost use Rattle.comp_model.specs.CoreModules.{Naming, Field};
ghost use Rattle.core_model.specs.Module.{module_with};
ghost use Rattle.core_model.specs.Weight.{weight_alone};
ghost use Rattle.core_model.specs.Words.{FieldsWord};
ghost use Rattle.core_model.specs.Resolved.{resolved_fields};
ghost use Rattle.core_write.specs.Module.{FitsModule};

/// What the resolver leaves of a core module can be written, where the module weighs at most 67,108,864, its own id and label among
/// that, and its numerals are below `2 ^ 32` and its constants within their bits.
pub fn light_module_fits()
    ensures { (n : Naming) (fs : List Field) → FieldsWord fs → weight_alone (module_with n fs) ≤ 67108864 → FitsModule n (resolved_fields fs) }
{}
