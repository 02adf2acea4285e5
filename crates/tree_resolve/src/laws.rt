//! What the chain asks of an expanded component, as a law: the function does nothing, and its contract is the law.

ghost use Rattle.comp_model.specs.Model.{Scope};
ghost use Rattle.comp_model.specs.Rows.{FitsRows};
ghost use Rattle.comp_model.specs.Written.{IsWritten};
ghost use Rattle.comp_expanded.specs.Expands.{Expands};
ghost use Rattle.comp_expanded.specs.ListMarks.{ListMarks};
ghost use Rattle.comp_expanded.specs.OfText.{OfText};
ghost use Rattle.tree_resolve.specs.Source.{IsSource};

/// An expansion of a component of the text, which is written by the table of rows, is what `resolve` asks for.
pub fn expansion_is_source()
    ensures { (s x : Scope) (os : ListMarks) → FitsRows s → IsWritten s → OfText s → Expands s x os → IsSource s x os }
{}
