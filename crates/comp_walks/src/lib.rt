//! One walk over each type of a tree, and what is asked of every tree by it.
//!
//! A tree of the text, a parsed, an expanded or a resolved one, stands for rows of the model of `comp_model`. Each of its types tells a
//! [`Visitor`] its parts in the order of the leaves: a leaf by [`Walk`], a row by [`Node`], a definition by [`Definition`]. What is asked
//! of a tree is a visitor, written once: [`weigh`], [`first_uncovered`], the tests of shape, [`count_references`], [`gather`]. References
//! become numbers by [`Renumber`]. A new type of the tree adds its walk and nothing else.
//!
//! Nothing here takes memory but `gather`.
#![tactic(auto)]

mod counting;
mod gathering;
pub mod laws;
mod numbers;
mod part;
mod shapes;
mod uncovered;
mod visitor;
mod walk;
mod weighing;

pub use counting::count_references;
pub use gathering::gather;
pub use numbers::{Numbers, renumber_index};
pub use part::{CoreValue, Names, Part, Reach};
pub use shapes::{are_ids_of_text, is_expanded, is_resolved};
pub use uncovered::{Uncovered, first_uncovered};
pub use visitor::{CoreSource, Visitor};
pub use walk::{Definition, Node, Renumber, RenumberNode, Walk, walk_definitions};
pub use weighing::{weigh, weigh_component, weigh_leaves};
