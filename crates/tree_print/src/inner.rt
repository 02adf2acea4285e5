//! The lines of rows that stand in others (Component Model, text format): entries of lists, options, descriptions and entities.

ghost use Rattle.std.specs.Prelude.{◌≡◌};
ghost use Rattle.print_table.specs.Lines.{inner_line};
ghost use Rattle.tree_print.specs.Lines.{line_pieces};

use crate::line::{Field, Frame, Line, Part, Piece};
use crate::word::Word;
use comp_model::Row;

/// The line of a row that stands in another; none of a row that stands nowhere there.
pub fn inner_line(row: Row) -> Line
    ensures { line_pieces result ≡ inner_line row }
{
    match row {
        Row::CoreValueType => Line {
            frame: Frame::Bare,
            pieces: &[Piece::Leaf(0, Field::CoreValue)],
        },
        Row::CoreFunctionType => Line {
            frame: Frame::Group(Word::Func),
            pieces: &[
                Piece::Leaf(0, Field::EachIn(Word::Param)),
                Piece::Leaf(1, Field::EachIn(Word::Result)),
            ],
        },
        Row::NamedType => Line {
            frame: Frame::Bare,
            pieces: &[Piece::Leaf(0, Field::Text), Piece::Leaf(1, Field::Value)],
        },
        Row::CaseType => Line {
            frame: Frame::Bare,
            pieces: &[
                Piece::Leaf(1, Field::Text),
                Piece::Leaf(2, Field::Optional(Part::Value)),
            ],
        },
        Row::LoneType => Line {
            frame: Frame::Bare,
            pieces: &[Piece::Leaf(0, Field::Value)],
        },
        Row::LoneName => Line {
            frame: Frame::Bare,
            pieces: &[Piece::Leaf(0, Field::Text)],
        },
        Row::CoreArgument => Line {
            frame: Frame::Bare,
            pieces: &[
                Piece::Leaf(0, Field::Text),
                Piece::Open,
                Piece::Word(Word::Instance),
                Piece::Leaf(1, Field::Number),
                Piece::Close,
            ],
        },
        Row::CoreBundleExport => Line {
            frame: Frame::Bare,
            pieces: &[
                Piece::Leaf(0, Field::Text),
                Piece::Open,
                Piece::Leaf(1, Field::CoreItem),
                Piece::Close,
            ],
        },
        Row::Argument => Line {
            frame: Frame::Bare,
            pieces: &[
                Piece::Leaf(0, Field::Text),
                Piece::Open,
                Piece::Leaf(1, Field::Item),
                Piece::Close,
            ],
        },
        Row::BundleExport => Line {
            frame: Frame::Bare,
            pieces: &[
                Piece::Leaf(0, Field::Text),
                Piece::Open,
                Piece::Leaf(1, Field::Item),
                Piece::Close,
            ],
        },
        Row::StartArgument => Line {
            frame: Frame::Bare,
            pieces: &[Piece::Leaf(0, Field::Number)],
        },
        Row::OptionUtf8 => Line {
            frame: Frame::Bare,
            pieces: &[Piece::Word(Word::EncodingUtf8)],
        },
        Row::OptionUtf16 => Line {
            frame: Frame::Bare,
            pieces: &[Piece::Word(Word::EncodingUtf16)],
        },
        Row::OptionLatin1Utf16 => Line {
            frame: Frame::Bare,
            pieces: &[Piece::Word(Word::EncodingLatin1Utf16)],
        },
        Row::OptionMemory => Line {
            frame: Frame::Group(Word::Memory),
            pieces: &[Piece::Leaf(0, Field::Number)],
        },
        Row::OptionRealloc => Line {
            frame: Frame::Group(Word::Realloc),
            pieces: &[Piece::Leaf(0, Field::Number)],
        },
        Row::OptionPostReturn => Line {
            frame: Frame::Group(Word::PostReturn),
            pieces: &[Piece::Leaf(0, Field::Number)],
        },
        Row::OptionAsync => Line {
            frame: Frame::Bare,
            pieces: &[Piece::Word(Word::Async)],
        },
        Row::OptionCallback => Line {
            frame: Frame::Group(Word::Callback),
            pieces: &[Piece::Leaf(0, Field::Number)],
        },
        Row::ModuleDescription => Line {
            frame: Frame::Group(Word::Core),
            pieces: &[
                Piece::Word(Word::Module),
                Piece::Open,
                Piece::Word(Word::Ty),
                Piece::Leaf(0, Field::Number),
                Piece::Close,
            ],
        },
        Row::FuncDescription => Line {
            frame: Frame::Group(Word::Func),
            pieces: &[
                Piece::Open,
                Piece::Word(Word::Ty),
                Piece::Leaf(0, Field::Number),
                Piece::Close,
            ],
        },
        Row::ComponentDescription => Line {
            frame: Frame::Group(Word::Component),
            pieces: &[
                Piece::Open,
                Piece::Word(Word::Ty),
                Piece::Leaf(0, Field::Number),
                Piece::Close,
            ],
        },
        Row::InstanceDescription => Line {
            frame: Frame::Group(Word::Instance),
            pieces: &[
                Piece::Open,
                Piece::Word(Word::Ty),
                Piece::Leaf(0, Field::Number),
                Piece::Close,
            ],
        },
        Row::TypeEq => Line {
            frame: Frame::Group(Word::Ty),
            pieces: &[
                Piece::Open,
                Piece::Word(Word::Eq),
                Piece::Leaf(0, Field::Number),
                Piece::Close,
            ],
        },
        Row::SubResource => Line {
            frame: Frame::Group(Word::Ty),
            pieces: &[
                Piece::Open,
                Piece::Word(Word::Sub),
                Piece::Word(Word::Resource),
                Piece::Close,
            ],
        },
        Row::FuncEntity => Line {
            frame: Frame::Group(Word::Func),
            pieces: &[
                Piece::Open,
                Piece::Word(Word::Ty),
                Piece::Leaf(0, Field::Number),
                Piece::Close,
            ],
        },
        Row::TableEntity => Line {
            frame: Frame::Group(Word::Table),
            pieces: &[
                Piece::Leaf(1, Field::Number),
                Piece::Leaf(2, Field::Optional(Part::Number)),
                Piece::Leaf(0, Field::Element),
            ],
        },
        Row::MemoryEntity => Line {
            frame: Frame::Group(Word::Memory),
            pieces: &[
                Piece::Leaf(0, Field::Number),
                Piece::Leaf(1, Field::Optional(Part::Number)),
            ],
        },
        Row::GlobalEntity => Line {
            frame: Frame::Group(Word::Global),
            pieces: &[
                Piece::Leaf(1, Field::OpensMutable),
                Piece::Leaf(0, Field::CoreValue),
                Piece::Leaf(1, Field::ClosesMutable),
            ],
        },
        _ => Line {
            frame: Frame::Bare,
            pieces: &[],
        },
    }
}
