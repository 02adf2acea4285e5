//! Parameters without ids.

ghost use Rattle.std.specs.Prelude.{◌≡◌, ◌<◌, ◌^◌, List, IfOk};
ghost use Rattle.comp_model.specs.CoreModules.{Field};
ghost use Rattle.core_model.specs.Types.{all_types};
ghost use Rattle.core_syntax.specs.Fields.{use_of};
ghost use Rattle.core_names.specs.ModuleIds.{AreNamesOf};
ghost use Rattle.core_resolve.specs.LocalIds.{nameless_count, FewParams};

use crate::signature::Signature;
use crate::type_table::TypeTable;
use crate::type_use::type_index;
use core_names::ModuleNames;
use core_syntax::TypeUse;
use std::alloc::AllocError;

/// How many parameters only the type of a use tells of: those of its type where it writes no signature.
pub(crate) fn count_nameless<'a>(
    room: &mut Signature,
    names: &ModuleNames<'a>,
    types: &TypeTable,
    use_: &TypeUse<'a>,
) -> Result<usize, AllocError>
    ghost source: { List Field }
    requires named { AreNamesOf names.now source }
    requires typed { types.now ≡ all_types source }
    requires few { FewParams types.now }
    ensures count { IfOk result (λ n. n ≡ nameless_count source (use_of use_.now)) }
    ensures few { IfOk result (λ n. n < 2 ^ 31) }
{
    match &use_.inline {
        Some(_) => Ok(0),
        None => Ok(types.param_count(type_index(room, names, types, use_)?)),
    }
}
