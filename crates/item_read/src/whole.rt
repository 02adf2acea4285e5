//! Bytes as the tree of the one component that they are read as.

ghost use Rattle.std.specs.Prelude.{◌≤◌, length};
ghost use Rattle.comp_wire.specs.Read.{Reads};
ghost use Rattle.wire_tree.specs.Model.{scope_of};
ghost use Rattle.wire_read.specs.Answer.{bytes_limit, IsShallow};
ghost use Rattle.item_read.specs.Answer.{TreeAnswer};

use crate::trees::tree_of;
use bumpalo::Bump;
use item_tree::Tree;
use std::alloc::Global;
use wire_read::{ReadError, ReadKind, read_tree};
use wire_tree::Scope;

/// The tree of a component that was read.
#[tactic(auto, using(crate::proofs::Answers::tree_read, crate::proofs::Answers::read_fits))]
fn tree_in<'a>(alloc: Global, bytes: &'a [u8], scope: &Scope<'_, 'a>) -> Result<Tree<'a>, ReadError>
    requires small { length bytes.now ≤ bytes_limit }
    requires reads { Reads bytes.now (scope_of scope.now) }
    requires shallow { IsShallow (scope_of scope.now) }
    ensures { TreeAnswer bytes.now result }
{
    match tree_of(alloc, scope) {
        Ok(tree) => Ok(tree),
        Err(_) => Err(ReadError {
            kind: ReadKind::NoMemory,
            offset: 0,
        }),
    }
}

/// The tree of the component that the bytes are read as (Component Model, binary format). Its texts, payloads and core modules are bytes of
/// these.
///
/// It is refused with `TooBig` where there are more than 8,388,608 bytes; with `NotComponent` where they are read as no component, at the
/// offset of the first section of the outermost component that isn't read in its place, or 0; with `TooDeep` where a scope inside 100 others
/// begins at the offset, as it does in each component with such a scope; and where memory ran out.
pub fn read<'a>(alloc: Global, bytes: &'a [u8]) -> Result<Tree<'a>, ReadError>
    ensures { TreeAnswer bytes.now result }
{
    let bump = Bump::new(alloc);
    match read_tree(alloc, &bump, bytes) {
        Ok(scope) => tree_in(alloc, bytes, &scope),
        Err(error) => Err(error),
    }
}
