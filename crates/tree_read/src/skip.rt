//! What is left of a group, unread.

ghost use Rattle.std.specs.Prelude.{◌≡◌, ◌≤◌, MatchOption, true, false};
ghost use Rattle.std.specs.Bool.{MatchBool};
ghost use Rattle.core_parts.specs.Over.{OneOver, stops};
ghost use Rattle.wast_grammar.specs.Classes.{among, is_inner};
ghost use Rattle.wast_grammar.specs.Grammar.{none, group_ends};
ghost use Rattle.wast_grammar.specs.Read.{skip_rest};
ghost use Rattle.wast_grammar.specs.Skips.{bracket};
ghost use Rattle.wast_grammar.specs.Stand.{class_at};
ghost use Rattle.wast_parser.specs.View.{stand_of};
ghost use Rattle.tree_read.specs.Comes.{Gives};

use crate::fault::Fault;
use crate::reader::Reader;
use wast_parser::Cursor;

/// Whether the next token stands in a group and begins or ends none.
fn is_inner(cursor: Cursor<'_>) -> bool
    ensures { result ≡ is_inner (class_at (stand_of cursor.entry)) }
{
    cursor.keyword().is_some()
        || cursor.id().is_some()
        || cursor.string().is_some()
        || cursor.integer().is_some()
}

/// How many groups are open behind the next token, where so many are open before it. None where the group ends in which all of these stand, and
/// before a token that stands in no group.
#[tactic(auto, using(core_parts::proofs::OneByOne::is_over_inner, core_parts::proofs::OneByOne::is_over_opening, core_parts::proofs::OneByOne::is_over_annotation, core_parts::proofs::OneByOne::is_over_closing, core_parts::proofs::OneByOne::is_stuck))]
fn count_behind(cursor: Cursor<'_>, count: usize) -> Option<usize>
    requires { count ≤ cursor.at }
    ensures { MatchOption result (stops count (bracket (class_at (stand_of cursor.entry))) ≡ true) (λ n. OneOver count n (stand_of cursor.entry)) }
{
    if is_inner(cursor) {
        return Some(count);
    }
    if let Some(_) = cursor.lparen() {
        return Some(count + 1);
    }
    if let Some(_) = cursor.annotation() {
        return Some(count + 1);
    }
    match cursor.rparen() {
        Some(_) if count > 0 => Some(count - 1),
        _ => None,
    }
}

/// Whether all is gone over: no group is open, and the one that holds them ends.
fn is_done(reader: &Reader<'_>, count: usize) -> bool
    ensures { MatchBool result ((count ≡ 0) × (among group_ends (class_at reader.now) ≡ true)) (count ≡ 0 → among group_ends (class_at reader.now) ≡ false) }
{
    count == 0 && reader.parser().is_empty()
}

/// Goes over all that is left of the group. A reserved token is refused, and the end of the text where a group is still open.
pub(crate) fn skip_rest(reader: &mut Reader<'_>) -> Result<(), Fault>
    ensures { Gives (λ _. none) result reader.new (skip_rest reader.old) }
{
    let mut count: usize = 0;
    'tokens: while !is_done(reader, count) {
        match count_behind(reader.parser().cursor(), count) {
            Some(behind) => {
                reader.pass();
                count = behind;
            }
            None => return Err(Fault::Parse),
        }
    }
    Ok(())
}
