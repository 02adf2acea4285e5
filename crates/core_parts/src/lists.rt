//! Lists of items up to the end of the group that holds them.

ghost use Rattle.std.specs.Prelude.{◌≡◌, ◌≤◌, ◌∷◌, ◌++◌, [], OnOk};
ghost use Rattle.wast_grammar.specs.Grammar.{going, many};
ghost use Rattle.wast_grammar.specs.Read.{Gives, read};
ghost use Rattle.wast_parser.specs.View.{many_view};

use crate::word_groups::GroupItem;
use std::alloc::{AllocError, Global};
use wast_parser::{Error, Parser};

/// Appends an item to a list that mostly stays short: it takes room for one item, and twice as much whenever it is full.
pub(crate) fn push_short<T: Drop>(items: &mut Vec<T>, item: T) -> Result<(), AllocError>
    ensures { OnOk result (items.new.items ≡ items.old.items ++ item ∷ []) }
{
    let length = items.len();
    if length == items.capacity() {
        items.try_reserve_exact(length.max(1))?;
    }
    items.push(item)?;
    Ok(())
}

/// Reads items onto an empty list up to the end of their group. What a refusal leaves in it is nothing to go by.
pub fn items_to_end<'a, T: GroupItem<'a>>(
    alloc: Global,
    parser: &mut Parser<'a>,
    items: &mut Vec<T>,
) -> Result<(), Error>
    requires none { items.old.items ≡ [] }
    ensures gives { Gives (λ _. many_view T.view items.new.items) result parser.new (read (many going T.item_row) parser.old) }
    ensures text { parser.new.text ≡ parser.old.text }
    ensures forward { parser.old.at ≤ parser.new.at }
{
    'items: while !parser.is_empty() {
        let item = T::item(alloc, parser)?;
        items.push(item)?;
    }
    Ok(())
}
