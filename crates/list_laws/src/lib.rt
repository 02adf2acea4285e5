//! Laws of listings: an order has a verdict for each line of a listing; and, with the origins of a component, where a reference is to a
//! generated outer alias, the listing says where the alias leads as the rule on names does.
#![tactic(auto)]

ghost use Rattle.std.specs.Prelude.{◌≡◌, ℕ, [], List, Option, map, length};
ghost use Rattle.comp_model.specs.declared.Space.{Space};
ghost use Rattle.comp_scopes.specs.Form.{Made, binary_defs};
ghost use Rattle.comp_scopes.specs.Renders.{leads};
ghost use Rattle.comp_list.specs.References.{reference};
ghost use Rattle.comp_list.specs.Listing.{line_of, or_zero, listing};
ghost use Rattle.comp_model.specs.Model.{Scope};
ghost use Rattle.comp_order.specs.Order.{scope_verdicts};
ghost use Rattle.list_laws.specs.Leads.{IsGeneratedAlias, led_of};

/// Of a reference to an outer alias that was generated, by the scopes around it with their origins, the innermost first, the line says where
/// `leads` has it lead.
pub fn led_is_leads()
    ensures { (scopes : List (List Made)) (space : Space) (index level def place : ℕ) (up : Option ℕ) → IsGeneratedAlias scopes (or_zero up) space index
        → (line_of level (map binary_defs scopes) def up place (reference space index)).led ≡ led_of (leads scopes (or_zero up) space index) }
{}

/// There is a verdict for each line of a listing, so the line that an order names is one of it.
pub fn each_line_has_a_verdict()
    ensures { (b : Scope) → length (scope_verdicts b []) ≡ length (listing b) }
{}
