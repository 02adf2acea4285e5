//! References and the numbers that they mean.

ghost use Rattle.std.specs.Prelude.{◌≡◌, ◌++◌, [], ℕ, List, Option, Some, map};
ghost use Rattle.comp_model.specs.Core.{Id};
ghost use Rattle.core_model.specs.Items.{index_of};
ghost use Rattle.core_model.specs.Resolved.{numbered as numbered_reference};
ghost use Rattle.core_syntax.specs.Ids.{reference_of};
ghost use Rattle.core_names.specs.ModuleIds.{place_named};
ghost use Rattle.core_resolve.specs.LocalIds.{behind_nameless, FitsBehind};

use core_names::Namespace;
use wast_parser::Index;

/// The number that a reference means; 0 for a name that no item bears.
pub(crate) fn number_of<'a>(names: &Namespace<'a>, index: &Index<'a>) -> u32
    ensures { result ≡ index_of names.now (reference_of index.now) }
{
    names.try_resolve(index).unwrap_or(0)
}

/// A reference as the number that it means, at its place.
pub(crate) fn numbered<'a>(names: &Namespace<'a>, index: &Index<'a>) -> Index<'a>
    ensures { reference_of result ≡ numbered_reference names.now (reference_of index.now) }
{
    Index::Num(number_of(names, index), index.span())
}

/// A reference into a space without items as a number, at its place.
pub(crate) fn numbered_alone<'a>(index: &Index<'a>) -> Index<'a>
    ensures { reference_of result ≡ numbered_reference [] (reference_of index.now) }
{
    match index {
        Index::Num(number, span) => Index::Num(*number, *span),
        Index::Id(id) => Index::Num(0, id.span()),
    }
}

/// Gives a reference the number that it means, at its place: that of a name is the next place, behind `before` others. What is left of
/// the places behind it.
pub(crate) fn number_next<'n, 'a>(
    before: u32,
    places: &'n [u32],
    index: &mut Index<'a>,
) -> &'n [u32]
    ensures numbered { (ids : List (Option Id)) (rest : List (Option ℕ)) → FitsBehind before ids → map Some places.now ≡ place_named ids (reference_of index.old) ++ rest → reference_of index.new ≡ numbered_reference (behind_nameless before ids) (reference_of index.old) }
    ensures left { (ids : List (Option Id)) (rest : List (Option ℕ)) → map Some places.now ≡ place_named ids (reference_of index.old) ++ rest → map Some result.now ≡ rest }
{
    match index {
        Index::Num(_, _) => places,
        Index::Id(id) => {
            if places.is_empty() {
                return places;
            }
            *index = Index::Num(before.wrapping_add(places[0]), id.span());
            &places[1..]
        }
    }
}
