//! Type uses: each gets the index of its type (WebAssembly, text format, Type Uses).

ghost use Rattle.std.specs.Prelude.{◌≡◌, List, OnOk, IfOk};
ghost use Rattle.comp_model.specs.CoreModules.{Field};
ghost use Rattle.core_model.specs.Types.{all_types, type_of_use};
ghost use Rattle.core_model.specs.Resolved.{numbered_use};
ghost use Rattle.core_syntax.specs.Fields.{use_of};
ghost use Rattle.core_names.specs.ModuleIds.{AreNamesOf};

use crate::index::number_of;
use crate::signature::Signature;
use crate::type_table::TypeTable;
use crate::types::number_signature;
use crate::written::written_signature;
use core_names::ModuleNames;
use core_syntax::TypeUse;
use std::alloc::AllocError;
use wast_parser::{Index, Span};

/// The index of the type of a use: the one that it gives, else that of the first type that is its signature, for which `room` is,
/// whatever it is.
pub(crate) fn type_index<'a>(
    room: &mut Signature,
    names: &ModuleNames<'a>,
    types: &TypeTable,
    use_: &TypeUse<'a>,
) -> Result<u32, AllocError>
    ghost source: { List Field }
    requires named { AreNamesOf names.now source }
    requires typed { types.now ≡ all_types source }
    ensures { IfOk result (λ n. n ≡ type_of_use source (use_of use_.now)) }
{
    match &use_.index {
        Some(index) => Ok(number_of(&names.types, index)),
        None => {
            written_signature(&names.types, &use_.inline, room)?;
            Ok(types.place_of(room).unwrap_or(0))
        }
    }
}

/// Gives a use the index of its type, at offset 0 where it wrote none, and numbers the names in its signature.
pub(crate) fn number_use<'a>(
    room: &mut Signature,
    names: &ModuleNames<'a>,
    types: &TypeTable,
    use_: &mut TypeUse<'a>,
) -> Result<(), AllocError>
    ghost source: { List Field }
    requires named { AreNamesOf names.now source }
    requires typed { types.now ≡ all_types source }
    ensures { OnOk result (use_of use_.new ≡ numbered_use source (use_of use_.old)) }
{
    let number = type_index(room, names, types, use_)?;
    let span = match &use_.index {
        Some(index) => index.span(),
        None => Span::from_offset(0),
    };
    use_.index = Some(Index::Num(number, span));
    if let Some(ty) = &mut use_.inline {
        number_signature(&names.types, ty);
    }
    Ok(())
}
