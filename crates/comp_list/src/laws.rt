//! The laws of listings. The functions do nothing; the contract of each is the law.

ghost use Rattle.std.specs.Prelude.{ℕ, List, length, ◌<◌, ◌^◌};
ghost use Rattle.comp_model.specs.Model.{Scope};
ghost use Rattle.comp_wire.specs.Read.{Reads};
ghost use Rattle.comp_list.specs.Listing.{listing};
ghost use Rattle.comp_list.specs.Room.{NumbersHaveRoom};

/// A listing has fewer lines than its binary has bytes, so that 64 bits number the lines of any binary in memory.
#[tactic(auto, using(crate::proofs::Fewer::fewer_lines))]
pub fn listing_is_short()
    ensures { (bytes : List ℕ) (b : Scope) → Reads bytes b → length (listing b) < length bytes }
{}

/// Of a component that fewer than 2^32 bytes are read as, each number of a line has room in 32 bits: the level, the numbers of definitions and
/// of their references and parts.
#[tactic(auto, using(crate::proofs::HaveRoom::have_room))]
pub fn numbers_have_room()
    ensures { (bytes : List ℕ) (b : Scope) → Reads bytes b → length bytes < 2 ^ 32 → NumbersHaveRoom b }
{}
