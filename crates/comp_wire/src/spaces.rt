//! The numbers of spaces.

ghost use Rattle.std.specs.Prelude.{◌≡◌, ◌<◌};
ghost use Rattle.comp_model.specs.Spaces.{code_of_space};

use comp_model::Space;

/// The number of a space, from 0 to 12 in the order of a name section.
pub fn space_number(space: Space) -> u8
    ensures number { result ≡ code_of_space space }
    ensures few { result < 13 }
{
    match space {
        Space::CoreFunc => 0,
        Space::CoreTable => 1,
        Space::CoreMemory => 2,
        Space::CoreGlobal => 3,
        Space::CoreTag => 4,
        Space::CoreType => 5,
        Space::CoreModule => 6,
        Space::CoreInstance => 7,
        Space::Func => 8,
        Space::Value => 9,
        Space::Ty => 10,
        Space::Component => 11,
        Space::Instance => 12,
    }
}
