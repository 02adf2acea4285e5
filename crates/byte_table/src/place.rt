//! The line of a row in any family where it may stand.

ghost use Rattle.std.specs.Prelude.{◌≡◌, ◌++◌, map};
ghost use Rattle.comp_wire.specs.Spelled.{find};
ghost use Rattle.comp_wire.specs.Table.{lines};
ghost use Rattle.byte_table.specs.Lines.{family_of, piece_of, line_pieces};
ghost use Rattle.byte_table.specs.Stands.{stand, in_instance_type, in_component_type, in_module_type, outer_stand, function_stand, lead_of};

use crate::line::{Family, Field, Piece, number_of};
use crate::table::line_of;
use comp_model::{Row, Space};

/// How a row stands in a family.
#[derive(Clone, Copy)]
pub enum Stand {
    /// Nowhere.
    Nowhere,
    /// As it is.
    Plain,
    /// Behind a byte.
    Behind(u8),
    /// As the outer alias of a module type.
    Outer,
}

fn in_instance_type(home: Family) -> Stand
    ensures { result ≡ in_instance_type (family_of home) }
{
    match home {
        Family::CoreTypes => Stand::Behind(0x00),
        Family::Types => Stand::Behind(0x01),
        Family::Aliases => Stand::Behind(0x02),
        Family::InstanceDeclarations => Stand::Plain,
        _ => Stand::Nowhere,
    }
}

fn in_component_type(home: Family) -> Stand
    ensures { result ≡ in_component_type (family_of home) }
{
    match home {
        Family::Imports => Stand::Behind(0x03),
        _ => in_instance_type(home),
    }
}

fn outer_stand(row: Row) -> Stand
    ensures { result ≡ outer_stand row }
{
    match row {
        Row::AliasOuter => Stand::Outer,
        _ => Stand::Nowhere,
    }
}

fn function_stand(row: Row) -> Stand
    ensures { result ≡ function_stand row }
{
    match row {
        Row::CoreFunctionType => Stand::Plain,
        _ => Stand::Nowhere,
    }
}

fn in_module_type(row: Row, home: Family) -> Stand
    ensures { result ≡ in_module_type row (family_of home) }
{
    match home {
        Family::CoreTypes => Stand::Behind(0x01),
        Family::ModuleDeclarations => Stand::Plain,
        Family::Aliases => outer_stand(row),
        _ => Stand::Nowhere,
    }
}

/// How a row whose line is that of a family stands in another.
#[inline(always)]
fn stand_in(row: Row, home: Family, family: Family) -> Stand
    ensures { result ≡ stand row (family_of home) (family_of family) }
{
    match family {
        Family::ComponentDeclarations => in_component_type(home),
        Family::InstanceDeclarations => in_instance_type(home),
        Family::ModuleDeclarations => in_module_type(row, home),
        Family::CoreFunctions => function_stand(row),
        _ => {
            if number_of(home) == number_of(family) {
                Stand::Plain
            } else {
                Stand::Nowhere
            }
        }
    }
}

/// A byte in front, and pieces.
#[derive(Clone, Copy)]
pub struct Placed {
    /// The byte.
    pub lead: Option<u8>,
    /// The pieces.
    pub pieces: &'static [Piece],
}

/// The pieces of a row in a family; none where it doesn't stand there.
#[inline(always)]
#[tactic(auto, using(crate::proofs::Places::placed))]
pub fn pieces_in(row: Row, family: Family) -> Placed
    ensures { line_pieces (find row (lines (family_of family))) ≡ lead_of result.lead ++ map piece_of result.pieces.now }
{
    let line = line_of(row);
    match stand_in(row, line.home, family) {
        Stand::Nowhere => Placed {
            lead: None,
            pieces: &[],
        },
        Stand::Plain => Placed {
            lead: None,
            pieces: line.pieces,
        },
        Stand::Behind(byte) => Placed {
            lead: Some(byte),
            pieces: line.pieces,
        },
        Stand::Outer => Placed {
            lead: None,
            pieces: &[
                Piece::Byte(0x02),
                Piece::Byte(0x10),
                Piece::Byte(0x01),
                Piece::Leaf(0, Field::Outward),
                Piece::Leaf(1, Field::IndexIn(Space::CoreType)),
                Piece::Leaf(2, Field::KindIs(Space::CoreType)),
            ],
        },
    }
}
