//! The encoding of a text: cut into tokens, read into its tree, and encoded by that.

ghost use Rattle.std.specs.Prelude.{◌≡◌, ◌⊎◌, ℕ, Some, is_some, IfOk, IfErr, OnOk};
ghost use Rattle.wast_tokens.specs.declared.error.ErrorKind.{ErrorKind};
ghost use Rattle.comp_model.specs.Origins.{no_origins};
ghost use Rattle.comp_wire.specs.Origins.{origins_of};
ghost use Rattle.open_scopes.specs.Refusals.{no_memory};
ghost use Rattle.tree_build.specs.Cores.{cores_of};
ghost use Rattle.tree_read.specs.Whole.{GivesText};
ghost use Rattle.wast_parser.specs.View.{text_of};
ghost use Rattle.wast_component.specs.Answer.{IsValid, IsEncoding, EncodesWith, Encodes, TextRefuses, EncoderRefuses, IsRefusedAs};
ghost use Rattle.wast_component.specs.Encodable.{CanBeEncoded, WrittenAs, whole_refusal};
ghost use Rattle.wast_component.specs.Seen.{seen};
ghost use Rattle.wast_component.specs.Shown.{Shows};
ghost use Rattle.wast_component.specs.Whole.{Whole as Meant, IsOfText};

use crate::bytes::{joined_bytes, text_bytes};
use crate::component::{Written, encode_component};
use crate::whole::{Whole, whole_of};
use bumpalo::Bump;
use comp_wire::{ScopeOrigins, Seq};
use std::alloc::Global;
use text_rules::laws::text_is_component;
use tree_read::{Cores, TextTree, read_text as read_tree};
use wast_parser::{Error, ErrorKind, ParseBuffer};

/// The binary of a component, and where each definition in it comes from.
#[derive(Drop)]
pub struct Encoded {
    /// The binary.
    pub bytes: Vec<u8>,
    /// The origins of its definitions, in order.
    pub origins: ScopeOrigins,
}

/// No marks, if they are to be recorded.
fn no_marks(alloc: Global, recorded: bool) -> Option<ScopeOrigins>
    ensures shown { Shows result no_origins }
    ensures recorded { is_some result ≡ recorded }
{
    if recorded {
        Some(ScopeOrigins {
            items: Seq::from_vec(Vec::new(alloc)),
        })
    } else {
        None
    }
}

/// What was read, encoded.
fn encode_whole<'a>(
    alloc: Global,
    bump: &'a Bump,
    whole: Whole<'a>,
    cores: Cores<'a>,
    recorded: bool,
) -> Result<Written, Error>
    requires text { IsOfText (seen (cores_of cores) whole) }
    ensures encodable { OnOk result (CanBeEncoded (seen (cores_of cores.entry) whole.entry)) }
    ensures written { IfOk result (λ w. WrittenAs (seen (cores_of cores.entry) whole.entry) w.bytes.items w.origins) }
    ensures recorded { IfOk result (λ w. is_some w.origins ≡ recorded) }
    ensures refused { IfErr result (λ e. (e ≡ no_memory) ⊎ (whole_refusal (seen (cores_of cores.entry) whole.entry) ≡ Some e)) }
{
    let bytes = match whole {
        Whole::Component(scope) => return encode_component(alloc, bump, scope, cores, recorded),
        Whole::Text(text) => text_bytes(alloc, text),
        Whole::Pieces(pieces) => joined_bytes(alloc, pieces),
        Whole::Module(offset) => {
            return Err(Error {
                kind: ErrorKind::Module,
                offset,
            });
        }
    };
    match bytes {
        Ok(bytes) => Ok(Written {
            bytes,
            origins: no_marks(alloc, recorded),
        }),
        Err(error) => Err(Error::from(error)),
    }
}

/// The tree of a text, in an arena that lives as long as its buffer.
fn read_text<'a>(
    alloc: Global,
    bump: &'a Bump,
    buffer: &'a ParseBuffer<'a>,
) -> Result<TextTree<'a, 'a>, Error>
    ensures gives { GivesText result (text_of buffer.now) }
{
    read_tree(alloc, bump, buffer)
}

/// The encoding of a text, with its origins where they are to be recorded, or the cause of its refusal.
fn encode_text(alloc: Global, text: &str, legacy: bool, recorded: bool) -> Result<Written, Error>
    ensures encoding { IfOk result (λ w. EncodesWith text.now legacy w.bytes.items w.origins) }
    ensures recorded { IfOk result (λ w. is_some w.origins ≡ recorded) }
    ensures refused { IfErr result (λ e. EncoderRefuses text.now legacy e.kind e.offset) }
{
    let arena = Bump::new(alloc);
    let buffer = match ParseBuffer::new(alloc, text, &arena, legacy) {
        Ok(buffer) => buffer,
        Err(error) => return Err(error),
    };
    text_is_component();
    let TextTree { def, cores } = match read_text(alloc, &arena, &buffer) {
        Ok(read) => read,
        Err(refusal) => return Err(refusal),
    };
    match encode_whole(alloc, &arena, whole_of(&def), cores, recorded) {
        Ok(written) => Ok(written),
        Err(cause) => Err(cause),
    }
}

/// The binary of the component that a text spells, without the origins of its definitions.
///
/// `text`, `legacy` and the refusals are those of [`encode_component_text`], and the bytes are an encoding of the text as there. Where
/// nobody asks for the origins, this call leaves out 48 bytes of memory for each definition.
pub fn component_binary(alloc: Global, text: &str, legacy: bool) -> Result<Vec<u8>, Error>
    // A binary comes for valid text alone: its bytes are read as a component that renders the text's.
    ensures encodes { IfOk result (λ bytes. Encodes text.now legacy bytes.items) }

    // Each refusal has its cause, and each cause its refusal, but for want of memory.
    ensures refused { IfErr result (λ e. EncoderRefuses text.now legacy e.kind e.offset) }
    ensures exact { (kind : ErrorKind) (offset : ℕ) → TextRefuses text.now legacy kind offset → IsRefusedAs result kind offset }

    // Valid text has its binary, but for want of memory.
    ensures complete { (component : Meant) → IsValid text.now legacy component → IfErr result (λ e. e.kind ≡ ErrorKind.NoMemory) }
{
    match encode_text(alloc, text, legacy, false) {
        Ok(written) => Ok(written.bytes),
        Err(refusal) => Err(refusal),
    }
}

/// The encoding of the component that a text spells.
///
/// `text` is the text of one component; where `legacy` is true, references are read in their older forms too. What comes back is the
/// component's binary with the origins of its definitions: the binary format reads the bytes as exactly one component, which renders the
/// text's (Component Model text and binary formats). What stands inside a definition or beside an import or an export - types, bundles of
/// exports, inline exports - has become a definition of its own; what a bundle or a type needs stands before the definition that uses it,
/// exports stand behind all. Names have become indices: before a definition stand an outer alias for each item of an enclosing scope that it
/// names, and the steps of each path in it. So it is in each scope in the component too, whose origins stand in that of the definition that
/// holds it. Behind the definitions of a component stands its name section, where it or one of them has a name.
///
/// A component in binary form, `(component binary ..)`, gives its strings, one behind the other, whatever they are, and no origins.
///
/// Refused are, each by its first cause in this order, with a byte offset:
///
/// - a text of more than 67,108,864 bytes, by `TooBig` at 0;
/// - one that can't be cut into tokens, by `Lex` at its first fault;
/// - one whose tokens spell neither a component nor a core module, by `Parse` at the token that doesn't fit, or at the length of the text
///   where it ends too soon, and one with a type or a component in a component below more than 100 open parentheses, by `TooDeep` at the
///   first of these;
/// - a core module, by `Module` at its word, or at 0 where the text is its fields alone;
/// - a component with a form that is read and never written, by `Form` at the first definition or field of a core module that holds one;
/// - one that weighs more than 67,108,864, by `TooBig` at 0;
/// - one that doesn't meet the rule on names, by the first demand that it doesn't meet, in three searches of each scope. First `Duplicate`
///   at the second of two definitions of one space with one id. Then, of all definitions, `OuterKind` at a name that leads to an item of an
///   enclosing scope of which there is no outer alias, and `CoreExportKind` at the root of a path to a core type or a core instance. Then,
///   of all definitions, `Unknown` at a name that nothing bears, `OuterComponent` and `OuterCount` at the word of an outer alias,
///   `Duplicate` at the second of two cases of one variant with one id, `Core` at the first rule that a core module breaks, and of a scope
///   in a definition all of this in its place. In a definition its inline types come first, each before the one that holds it, then its
///   bundles, the roots of its paths, and the rest.
///
/// Want of memory is `NoMemory` at 0.
pub fn encode_component_text(alloc: Global, text: &str, legacy: bool) -> Result<Encoded, Error>
    // An encoding comes for valid text alone: its bytes are read as a component that renders the text's.
    ensures encoding { IfOk result (λ e. IsEncoding text.now legacy e.bytes.items (origins_of e.origins)) }
    ensures encodes { IfOk result (λ e. Encodes text.now legacy e.bytes.items) }

    // Each refusal has its cause, and each cause its refusal, but for want of memory.
    ensures refused { IfErr result (λ e. EncoderRefuses text.now legacy e.kind e.offset) }
    ensures exact { (kind : ErrorKind) (offset : ℕ) → TextRefuses text.now legacy kind offset → IsRefusedAs result kind offset }

    // Valid text is encoded, but for want of memory.
    ensures complete { (component : Meant) → IsValid text.now legacy component → IfErr result (λ e. e.kind ≡ ErrorKind.NoMemory) }
{
    let Written { bytes, origins } = match encode_text(alloc, text, legacy, true) {
        Ok(written) => written,
        Err(refusal) => return Err(refusal),
    };
    match origins {
        Some(origins) => Ok(Encoded { bytes, origins }),
        None => unreachable!(),
    }
}
