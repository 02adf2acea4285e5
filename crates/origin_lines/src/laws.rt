//! How many marks a plan has. The function does nothing; its contract is the law.

ghost use Rattle.std.specs.Prelude.{◌≤◌, List};
ghost use Rattle.comp_model.specs.Model.{Scope};
ghost use Rattle.comp_scopes.specs.Encoding.{Encoding};
ghost use Rattle.comp_scopes.specs.Form.{form, plan};
ghost use Rattle.comp_scopes.specs.Rowed.{Rowed};
ghost use Rattle.comp_weight.specs.Cost.{cost_scope};
ghost use Rattle.origin_lines.specs.Count.{marks_in};

/// A plan has no more marks, those of inner scopes too, than the form costs bytes by `cost_scope` of `comp_weight`.
pub fn plan_costs_its_marks()
    ensures { (e : Encoding) (st : List Scope) (s : Scope) → Rowed s → marks_in (plan e st s) ≤ cost_scope (form e st s) }
{}
