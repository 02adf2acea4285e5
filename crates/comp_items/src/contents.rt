//! What stands behind a word that names the kind of a core item (Component Model, "Canonical Definitions").

ghost use Rattle.std.specs.Prelude.{◌≡◌, ◌≤◌, IfOk};
ghost use Rattle.comp_model.specs.Model.{◌▸◌, no_leaf};
ghost use Rattle.text_rules.specs.Rule.{reads};
ghost use Rattle.text_table.specs.Code.{rule_of};
ghost use Rattle.text_table.specs.ItemKinds.{core_item_space};
ghost use Rattle.typed_parts.specs.Leaves.{left_by};
ghost use Rattle.wast_grammar.specs.Read.{read};
ghost use Rattle.wast_parser.specs.Standing.{ComesBy};
ghost use Rattle.comp_items.specs.Items.{core_item_leaf, core_contents};
ghost use Rattle.comp_items.specs.ReferenceLaws.{reads_contents};

use crate::core_items::CoreItemRef;
use crate::refusals::no_room;
use crate::words::CoreItemWord;
use comp_model::Space;
use std::alloc::{AllocError, Global};
use text_table::CoreItemKind;
use text_table::rule::Rule::{Either, Group, Path, Word};
use text_table::rule::{Rule, Steps, Test};
use token_codes::numbers as word;
use typed_parts::{OfLeaves, read_leaves};
use wast_parser::{Error, Parser};

/// `idx`, in the older form with a string behind it, or `"(" "core" k idx text? ")"`.
macro_rules! contents {
    ($word:expr, $space:expr) => {
        &Either(
            &Test::Range(word::ID, word::WIDE),
            &Path($space, Steps::Legacy),
            &Group(&Word(word::CORE, &Word($word, &Path($space, Steps::One)))),
        )
    };
}

const FUNC: &Rule<'static> = contents!(word::FUNC, Space::CoreFunc);

const TABLE: &Rule<'static> = contents!(word::TABLE, Space::CoreTable);

const MEMORY: &Rule<'static> = contents!(word::MEMORY, Space::CoreMemory);

const TYPE: &Rule<'static> = contents!(word::TYPE, Space::CoreType);

const INSTANCE: &Rule<'static> = contents!(word::INSTANCE, Space::CoreInstance);

/// The rule of what stands behind the word of a kind.
fn contents_rule(kind: CoreItemKind) -> &'static Rule<'static>
    ensures { rule_of result.now ≡ core_contents (core_item_space kind) }
{
    match kind {
        CoreItemKind::Func => FUNC,
        CoreItemKind::Table => TABLE,
        CoreItemKind::Memory => MEMORY,
        CoreItemKind::Ty => TYPE,
        CoreItemKind::Instance => INSTANCE,
    }
}

/// Reads a reference behind the word of its kind: an index, or in parentheses `core`, the word once more and the name of the export that it is.
///
/// In the older form the name may stand behind the index. A refusal is `Parse` at the token that doesn't fit, or at the end of the text, or
/// `NoMemory` at offset 0. After the first the parser stands at the token that the offset names.
pub fn parse_core_prefixed_contents<'a, K: CoreItemWord>(
    alloc: Global,
    parser: &mut Parser<'a>,
    kind: K,
) -> Result<CoreItemRef<'a, K>, Error>
    ensures gives { ComesBy (λ x v. core_item_leaf (core_item_space K.core_item_kind) x.idx x.export_name ▸ no_leaf ≡ left_by (core_contents (core_item_space K.core_item_kind)) v) result parser.new (read (reads (core_contents (core_item_space K.core_item_kind))) parser.old) }
    ensures kind { IfOk result (λ x. x.kind ≡ kind) }
    ensures text { parser.new.text ≡ parser.old.text }
    ensures forward { parser.old.at ≤ parser.new.at }
{
    let bump = parser.arena();
    match read_leaves(alloc, contents_rule(K::core_kind()), parser) {
        Ok(leaves) => {
            match <CoreItemRef<'a, K> as OfLeaves<'a>>::from_tree(alloc, bump, leaves.as_slice()) {
                Ok(item) => Ok(CoreItemRef {
                    kind,
                    idx: item.idx,
                    export_name: item.export_name,
                }),
                Err(AllocError) => Err(no_room()),
            }
        }
        Err(refusal) => Err(refusal),
    }
}
