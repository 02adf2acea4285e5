//! Tests of the next tokens that tell a reference (Component Model, "Alias Definitions").

ghost use Rattle.std.specs.Prelude.{◌≡◌, refl};
ghost use Rattle.text_table.specs.Code.{test_of};
ghost use Rattle.text_table.specs.ItemKinds.{item_space, core_item_space};
ghost use Rattle.wast_grammar.specs.Grammar.{holds};
ghost use Rattle.wast_parser.specs.View.{stand_of};
ghost use Rattle.comp_items.specs.Tests.{is_item_of};

use crate::core_items::CoreItemRef;
use crate::items::ItemRef;
use crate::words::{CoreItemWord, ItemWord};
use text_table::rule::Test;
use text_table::{CoreItemKind, ItemKind, holds_at};
use token_codes::numbers as word;
use wast_parser::{Cursor, Peek};

/// A word, an index, and behind it `)` or a string.
macro_rules! word_and_index {
    ($word:expr) => {
        &Test::Form(
            &[$word],
            &[word::ID, word::NUMERAL, word::WIDE],
            &[&[word::CLOSING, word::TEXT, word::BYTES]],
        )
    };
}

const FUNC: &Test<'static> = word_and_index!(word::FUNC);

const VALUE: &Test<'static> = word_and_index!(word::VALUE);

const TYPE: &Test<'static> = word_and_index!(word::TYPE);

const COMPONENT: &Test<'static> = word_and_index!(word::COMPONENT);

const INSTANCE: &Test<'static> = word_and_index!(word::INSTANCE);

const MODULE: &Test<'static> = word_and_index!(word::MODULE);

const TABLE: &Test<'static> = word_and_index!(word::TABLE);

const MEMORY: &Test<'static> = word_and_index!(word::MEMORY);

/// The test of a reference to an item of a kind.
fn item_test(kind: ItemKind) -> &'static Test<'static>
    ensures { test_of result.now ≡ is_item_of (item_space kind) }
{
    match kind {
        ItemKind::CoreModule => MODULE,
        ItemKind::Func => FUNC,
        ItemKind::Value => VALUE,
        ItemKind::Ty => TYPE,
        ItemKind::Component => COMPONENT,
        ItemKind::Instance => INSTANCE,
    }
}

/// The test of a reference to a core item of a kind.
fn core_item_test(kind: CoreItemKind) -> &'static Test<'static>
    ensures { test_of result.now ≡ is_item_of (core_item_space kind) }
{
    match kind {
        CoreItemKind::Func => FUNC,
        CoreItemKind::Table => TABLE,
        CoreItemKind::Memory => MEMORY,
        CoreItemKind::Ty => TYPE,
        CoreItemKind::Instance => INSTANCE,
    }
}

/// The word of the kind, an index, and behind it `)` or a string.
impl<K: ItemWord> Peek for ItemRef<'_, K> {
    ghost test = { is_item_of (item_space K.item_kind) };

    ghost is_short = { refl };

    fn peek(cursor: Cursor<'_>) -> bool
        ensures holds { result ≡ holds (is_item_of (item_space K.item_kind)) (stand_of cursor.entry) }
    {
        holds_at(item_test(K::kind()), cursor)
    }

    fn display() -> &'static str {
        "a component item reference"
    }
}

/// The word of the kind, an index, and behind it `)` or a string.
impl<K: CoreItemWord> Peek for CoreItemRef<'_, K> {
    ghost test = { is_item_of (core_item_space K.core_item_kind) };

    ghost is_short = { refl };

    fn peek(cursor: Cursor<'_>) -> bool
        ensures holds { result ≡ holds (is_item_of (core_item_space K.core_item_kind)) (stand_of cursor.entry) }
    {
        holds_at(core_item_test(K::core_kind()), cursor)
    }

    fn display() -> &'static str {
        "a core item reference"
    }
}
