//! Whether sections fit.

ghost use Rattle.std.specs.Prelude.{◌≡◌};
ghost use Rattle.core_syntax.specs.Fields.{fields_of};
ghost use Rattle.core_write.specs.Module.{items_in_part};
ghost use Rattle.core_fits.specs.Sizes.{IsSize};
ghost use Rattle.core_fits.specs.Tests.{fits_items, fits_part as is_fitting};

use crate::items::item_size;
use crate::size::Size;
use core_syntax::ModuleField;
use core_write::Part;

/// The size of what fields give to a section.
fn items_size(part: Part, fields: &[ModuleField<'_>]) -> Size
    ensures { IsSize result (items_in_part part (fields_of fields.now)) (fits_items part (fields_of fields.now)) }
{
    let mut size = Size::none();
    for field in fields {
        size = size.and(item_size(part, field));
    }
    size
}

/// Whether a section fits whose items each field gives by itself.
pub(crate) fn fits_part(part: Part, fields: &[ModuleField<'_>]) -> bool
    ensures { result ≡ is_fitting part (fields_of fields.now) }
{
    items_size(part, fields).fits_section()
}
