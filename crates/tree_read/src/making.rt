//! What is rarely made of all that a part left, by the kind that a rule names.

ghost use Rattle.tree_build.specs.Adds.{MakesOf};
ghost use Rattle.tree_build.specs.AllEnds.{HasEnds, IsAtEnds};
ghost use Rattle.text_table.specs.Code.{wrap_of};

use std::alloc::AllocError;
use text_table::rule::Wrap;
use tree_build::{
    Ends, Scratch, wrap_by_number, wrap_dropped, wrap_entry, wrap_heap, wrap_joined,
    wrap_last_first, wrap_other_alone, wrap_outer, wrap_results, wrap_swapped,
};
use wast_parser::Span;

/// What is rarely made of all that a part left behind the ends, whose first word stands there.
pub(crate) fn wrap(
    scratch: &mut Scratch<'_, '_>,
    kind: Wrap,
    span: Span,
    ends: Ends,
) -> Result<(), AllocError>
    requires { HasEnds ends scratch.old }
    ensures { MakesOf (wrap_of kind) (IsAtEnds ends) result scratch.old scratch.new }
{
    match kind {
        Wrap::Entry => wrap_entry(scratch, span, ends.rows, ends.leaves),
        Wrap::Swapped => {
            wrap_swapped(scratch, ends.leaves);
            Ok(())
        }
        Wrap::LastFirst => wrap_last_first(scratch, ends.leaves),
        Wrap::Outer => wrap_outer(scratch, ends.leaves, ends.places),
        Wrap::Dropped => {
            wrap_dropped(scratch, ends);
            Ok(())
        }
        Wrap::Heap(nullable) => wrap_heap(scratch, nullable, ends.leaves),
        Wrap::Results => wrap_results(scratch, ends.ids),
        Wrap::Joined => wrap_joined(scratch, ends.leaves),
        Wrap::ByNumber(lists) => wrap_by_number(scratch, lists, ends.nodes),
        Wrap::OtherAlone => {
            wrap_other_alone(scratch, ends);
            Ok(())
        }
    }
}
