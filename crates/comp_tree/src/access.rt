//! What a leaf holds.

ghost use Rattle.std.specs.Prelude.{◌≡◌, List, option_map};
ghost use Rattle.comp_model.specs.CoreModules.{CoreModule};
ghost use Rattle.comp_tree.specs.Access.{nodes_in, scope_in, text_in};
ghost use Rattle.comp_tree.specs.Lists.{nodes_listed};
ghost use Rattle.comp_tree.specs.Model.{leaf_of, scope_of};

use crate::tree::{Leaf, Node, Scope};

impl<'t, 'a> Leaf<'t, 'a> {
    /// The text that it is, if it is one in one piece.
    pub fn as_text(&self) -> Option<&'a str>
        ensures { result ≡ text_in self.now }
    {
        match self {
            Leaf::Text(text) => Some(*text),
            _ => None,
        }
    }

    /// The nodes that it is, if it is a list of them.
    pub fn as_nodes(&self) -> Option<&'t [Node<'t, 'a>]>
        ensures { (cores : List CoreModule) → option_map (λ ns. nodes_listed cores ns.now) result ≡ nodes_in (leaf_of cores self.now) }
    {
        match self {
            Leaf::Nodes(nodes) => Some(*nodes),
            Leaf::Core(_) => None,
            _ => None,
        }
    }

    /// The scope that it is, if it is one.
    pub fn as_scope(&self) -> Option<&'t Scope<'t, 'a>>
        ensures { (cores : List CoreModule) → option_map (λ s. scope_of cores s.now) result ≡ scope_in (leaf_of cores self.now) }
    {
        match self {
            Leaf::Scope(scope) => Some(*scope),
            Leaf::Core(_) => None,
            _ => None,
        }
    }
}
