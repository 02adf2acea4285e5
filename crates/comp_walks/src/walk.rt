//! Walks over the parts of a tree.

ghost use Rattle.std.specs.Prelude.{◌≡◌, ◌≤◌, ◌+◌, false, length};
ghost use Rattle.comp_model.specs.Events.{told_leaf, told_leaves, told_def, told_defs};
ghost use Rattle.comp_model.specs.Model as m;
ghost use Rattle.comp_model.specs.declared.row.Row.{Row as ModelRow};
ghost use Rattle.comp_scopes.specs.References.{references_leaf, references};
ghost use Rattle.comp_walks.specs.Lists.{is_node, definitions};
ghost use Rattle.comp_walks.specs.Numbered.{numbered_leaf, numbered, past};

use crate::numbers::Numbers;
use crate::part::Part;
use crate::visitor::Visitor;
use comp_model::Row;

/// What is one leaf of a row, and no node.
pub trait Walk {
    /// The leaf.
    ghost leaf: { Self → m.Leaf };

    ghost is_plain: { (x : Self) → is_node (leaf x) ≡ false };

    /// Tells a visitor the leaf.
    fn walk<V: Visitor>(&self, visitor: &mut V)
        ensures { visitor.new ≡ told_leaf V.step V.enters (leaf self.now) visitor.old };
}

/// What is a node: a row with its leaves.
pub trait Node {
    /// The row.
    ghost tag: { Self → ModelRow };

    /// The leaves.
    ghost leaves: { Self → m.Leaves };

    /// The row.
    fn row(&self) -> Row
        ensures { result ≡ tag self.now };

    /// Tells a visitor the leaves.
    fn walk_leaves<V: Visitor>(&self, visitor: &mut V)
        ensures { visitor.new ≡ told_leaves V.step V.enters (leaves self.now) visitor.old };
}

/// What is a definition.
pub trait Definition {
    /// The definition.
    ghost def: { Self → m.Def };

    /// Tells a visitor the definition, or nothing where it passes that over.
    fn walk_definition<V: Visitor>(&self, visitor: &mut V)
        ensures { visitor.new ≡ told_def V.step V.enters (def self.now) visitor.old };
}

/// Tells a visitor definitions, one after the other.
pub fn walk_definitions<T: Definition, V: Visitor>(items: &[T], visitor: &mut V)
    ensures { visitor.new ≡ told_defs V.step V.enters (definitions T.def items.now) visitor.old }
{
    for item in items {
        item.walk_definition(visitor);
    }
}

/// A leaf whose references can become numbers.
pub trait Renumber: Walk {
    /// Writes a number into each reference of the leaf.
    fn renumber(&mut self, numbers: &mut Numbers<'_>)
        requires { numbers.old.at + references_leaf (Self.leaf self.old) ≤ length numbers.old.list }
        ensures leaf { Self.leaf self.new ≡ numbered_leaf numbers.old.list numbers.old.at (Self.leaf self.old) }
        ensures past { numbers.new ≡ past (references_leaf (Self.leaf self.old)) numbers.old };
}

/// A node whose references can become numbers.
pub trait RenumberNode: Node {
    /// Writes a number into each reference of the node.
    fn renumber_leaves(&mut self, numbers: &mut Numbers<'_>)
        requires { numbers.old.at + references (Self.leaves self.old) ≤ length numbers.old.list }
        ensures tag { Self.tag self.new ≡ Self.tag self.old }
        ensures leaves { Self.leaves self.new ≡ numbered numbers.old.list numbers.old.at (Self.leaves self.old) }
        ensures past { numbers.new ≡ past (references (Self.leaves self.old)) numbers.old };
}

impl<T: Node> Walk for Vec<T> {
    ghost use Rattle.std.specs.Prelude.{refl};
    ghost use Rattle.comp_walks.specs.Lists.{entries};

    ghost leaf = { λ v. m.nodes (entries T.tag T.leaves v.items) };

    ghost is_plain = { λ v. refl };

    fn walk<V: Visitor>(&self, visitor: &mut V) {
        visitor.tell(Part::List);
        for item in self {
            visitor.tell(Part::Row(item.row()));
            item.walk_leaves(visitor);
        }
    }
}

impl<T: RenumberNode> Renumber for Vec<T> {
    fn renumber(&mut self, numbers: &mut Numbers<'_>) {
        for i in 0..self.len() {
            self[i].renumber_leaves(numbers);
        }
    }
}

impl<T: Walk> Walk for Box<T> {
    ghost leaf = { λ b. T.leaf b.value };

    ghost is_plain = { λ b. T.is_plain b.value };

    fn walk<V: Visitor>(&self, visitor: &mut V) {
        (**self).walk(visitor);
    }
}

impl<T: Renumber> Renumber for Box<T> {
    fn renumber(&mut self, numbers: &mut Numbers<'_>) {
        (**self).renumber(numbers);
    }
}

impl<T: Walk> Walk for Option<T> {
    ghost use Rattle.comp_walks.specs.Lists.{option_leaf, option_plain};

    ghost leaf = { option_leaf T.leaf };

    ghost is_plain = { option_plain T.leaf };

    fn walk<V: Visitor>(&self, visitor: &mut V) {
        match self {
            Some(part) => {
                visitor.tell(Part::Present);
                part.walk(visitor);
            }
            None => visitor.tell(Part::Absent),
        }
    }
}

impl<T: Renumber> Renumber for Option<T> {
    fn renumber(&mut self, numbers: &mut Numbers<'_>) {
        if let Some(part) = self {
            part.renumber(numbers);
        }
    }
}
