//! Which definition of the text a mark belongs to, and the numbers of its references there.

ghost use Rattle.std.specs.Prelude.{◌≡◌};
ghost use Rattle.comp_expanded.specs.TextNumbers.{definition_of};
ghost use Rattle.comp_wire.specs.Origins.{origin_of};
ghost use Rattle.tree_resolve.specs.Made.{number_in};

use comp_wire::Origin;

/// The definition of the text to which a mark belongs.
pub(crate) fn definition_of(origin: Origin) -> u32
    ensures { result ≡ definition_of (origin_of origin) }
{
    match origin {
        Origin::Written(def) => def,
        Origin::InlineType { def, .. } => def,
        Origin::Bundle { def, .. } => def,
        Origin::InlineExport { def, .. } => def,
        Origin::ExportStep { def, .. } => def,
        Origin::OuterAlias { def, .. } => def,
        Origin::NameSection => 0,
    }
}

/// The number in the text of a reference of a definition: that which stands there, or its own where none stand.
pub(crate) fn number_in(places: &[u32], reference: u32) -> u32
    ensures { result ≡ number_in places.now reference }
{
    if places.is_empty() {
        return reference;
    }
    match places.get(reference as usize) {
        Some(number) => *number,
        None => 0,
    }
}
