//! The lines of a definition's own references.

ghost use Rattle.std.specs.Prelude.{◌≡◌, ◌<◌, ◌^◌, ◌++◌, length, OnOk};
ghost use Rattle.comp_list.specs.Open.{scopes_of, AllFound};
ghost use Rattle.comp_list.specs.Listing.{line_of, lines_of, or_zero};

use crate::line::Line;
use crate::open::{Around, led_in, spot_at};
use crate::reference::Reference;
use std::alloc::AllocError;

/// The number of scopes outward at which an index is looked up.
fn or_zero(up: Option<u32>) -> u32
    ensures { result ≡ or_zero up }
{
    match up {
        None => 0,
        Some(up) => up,
    }
}

/// Where the references of a definition stand.
#[derive(Clone, Copy)]
pub struct Stand {
    /// The level of their scope.
    pub level: u32,
    /// The number of the definition.
    pub def: u32,
    /// The count of an outer alias.
    pub up: Option<u32>,
}

/// The line of a reference.
fn line_of(around: Around<'_, '_, '_>, stand: Stand, place: u32, reference: Reference) -> Line
    requires depth { length (scopes_of around) < 2 ^ 32 }
    ensures { AllFound around.entry → result ≡ line_of stand.level (scopes_of around.entry) stand.def stand.up place reference }
{
    let up = or_zero(stand.up);
    let at = spot_at(around, up as u64, reference.space, reference.index);
    let led = led_in(around, up, at);
    Line {
        level: stand.level,
        def: stand.def,
        place,
        space: reference.space,
        index: reference.index,
        up: stand.up,
        at,
        led,
    }
}

/// Puts the lines of references behind others.
pub fn push_lines(
    lines: &mut Vec<Line>,
    around: Around<'_, '_, '_>,
    stand: Stand,
    references: &[Reference],
) -> Result<(), AllocError>
    requires few { length references.now < 2 ^ 32 }
    requires depth { length (scopes_of around) < 2 ^ 32 }
    ensures { AllFound around.entry → OnOk result (lines.new.items ≡ lines.old.items ++ lines_of stand.level (scopes_of around.entry) stand.def stand.up 0 references.now) }
{
    let mut place = 0;
    for reference in references {
        lines.push(line_of(around, stand, place, *reference))?;
        place += 1;
    }
    Ok(())
}
