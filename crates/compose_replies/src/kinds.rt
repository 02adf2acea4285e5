//! The printed name of each kind of refusal of a plan.

ghost use Rattle.std.specs.Prelude.{◌≡◌, option_map};
ghost use Rattle.compose_replies.specs.Answer.{plan_kind_name};

use comp_compose::PlanKind;

/// The printed name of a kind; want of memory has none, since it says nothing of the plan.
pub fn plan_kind_name(kind: PlanKind) -> Option<&'static str>
    ensures { option_map (λ name. name.now) result ≡ plan_kind_name kind }
{
    match kind {
        PlanKind::TooBig { .. } => Some("TooBig"),
        PlanKind::Syntax => Some("Plan-Syntax"),
        PlanKind::Duplicate => Some("Plan-Duplicate"),
        PlanKind::Unknown => Some("Plan-Unknown"),
        PlanKind::Part => Some("Plan-Part"),
        PlanKind::NoMemory => None,
    }
}
