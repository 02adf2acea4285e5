//! How many marks origins have.

ghost use Rattle.std.specs.Prelude.{◌≡◌, ◌∷◌, [], ◌+◌, ◌^◌, ◌≤◌, MatchOption};
ghost use Rattle.comp_wire.specs.Origins.{origin_of, origins_of, origins_of_list};
ghost use Rattle.origin_lines.specs.Count.{one_if_outer, marks_in, outer_aliases_in};
ghost use Rattle.origin_lines.specs.Adding.{AddsUp};

use comp_wire::{ItemOrigin, Origin, ScopeOrigins};

/// How many marks there are.
#[derive(Clone, Copy, PartialEq, Eq, Debug)]
pub struct Counts {
    /// All of them.
    pub marks: u64,
    /// Those of outer aliases.
    pub outer_aliases: u64,
}

/// One more mark, if the count stays below 2^64.
fn one_more(counts: Counts, origin: Origin) -> Option<Counts>
    requires { counts.outer_aliases ≤ counts.marks }
    ensures { MatchOption result
        (2 ^ 64 ≤ counts.marks + 1)
        (λ more. (more.marks ≡ counts.marks + 1) × (more.outer_aliases ≡ counts.outer_aliases + one_if_outer (origin_of origin))) }
{
    let marks = counts.marks.checked_add(1)?;
    let outer_aliases = match origin {
        Origin::OuterAlias { .. } => counts.outer_aliases + 1,
        _ => counts.outer_aliases,
    };
    Some(Counts {
        marks,
        outer_aliases,
    })
}

/// The counts with the marks of a definition and of the scope that it holds, if they stay below 2^64.
#[cycle(counts)]
fn add_item(counts: Counts, item: &ItemOrigin) -> Option<Counts>
    requires { counts.outer_aliases ≤ counts.marks }
    ensures { AddsUp counts (origins_of_list (item.now ∷ [])) result }
{
    let counts = one_more(counts, item.origin)?;
    match &item.inner {
        Some(inner) => add_marks(counts, inner),
        None => Some(counts),
    }
}

/// The counts with all marks of a scope, if they stay below 2^64.
#[cycle(counts)]
fn add_marks(counts: Counts, scope: &ScopeOrigins) -> Option<Counts>
    requires { counts.outer_aliases ≤ counts.marks }
    ensures { AddsUp counts (origins_of scope.now) result }
{
    let mut all = counts;
    for item in scope.items.as_slice() {
        match add_item(all, item) {
            Some(more) => all = more,
            None => return None,
        }
    }
    Some(all)
}

/// How many marks the origins of a component have, those of its inner scopes too, and how many of these are outer aliases; none where
/// there are 2^64 marks or more.
pub fn count_marks(scope: &ScopeOrigins) -> Option<Counts>
    ensures { MatchOption result
        (2 ^ 64 ≤ marks_in (origins_of scope.now))
        (λ all. (all.marks ≡ marks_in (origins_of scope.now)) × (all.outer_aliases ≡ outer_aliases_in (origins_of scope.now))) }
{
    add_marks(
        Counts {
            marks: 0,
            outer_aliases: 0,
        },
        scope,
    )
}
