//! The laws of texts and components.

ghost use Rattle.std.specs.Prelude.{ℕ, Bool, List};
ghost use Rattle.comp_model.specs.Origins.{Origins};
ghost use Rattle.wast_component.specs.Answer.{IsEncoding, IsSpelledOnce};
ghost use Rattle.wast_component.specs.LightPlan.{IsLightPlan};

use text_rules::laws::text_is_component;

/// The tokens of a text spell one component or one core module at most.
pub fn spelled_once()
    ensures once { IsSpelledOnce }
{}

/// The origins of an encoding are the plan of a component whose form costs less than 2^32 bytes, by `cost_scope` of `comp_weight`; those of a
/// component in binary form are none.
pub fn encodings_are_light()
    ensures { (text : List ℕ) (legacy : Bool) (bytes : List ℕ) (origins : Origins) → IsEncoding text legacy bytes origins → IsLightPlan origins }
{
    text_is_component();
}
