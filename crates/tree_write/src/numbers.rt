//! Numbers in LEB128, lengths and texts, in front of what was written.

ghost use Rattle.std.specs.Prelude.{◌≡◌, ◌≤◌, List, ℕ};
ghost use Rattle.comp_model.specs.Leb.{leb, plain, uleb, sleb};
ghost use Rattle.comp_model.specs.Payloads.{framed};
ghost use Rattle.tree_write.specs.Kept.{Kept, put, Taken};

use crate::sink::Sink;

/// Writes the shortest LEB128 of a number, in which one below `limit` is the last byte.
fn write_leb<S: Sink>(sink: &mut S, value: u64, limit: u64)
    requires least { 64 ≤ limit }
    requires most { limit ≤ 128 }
    ensures { S.kept sink.new ≡ put (leb plain limit value) (S.kept sink.old) }
{
    if value < limit {
        sink.byte(value as u8);
    } else {
        write_leb(sink, value / 128, limit);
        sink.byte(128 + (value % 128) as u8);
    }
}

/// Writes a number in unsigned LEB128.
#[inline(always)]
pub fn write_unsigned<S: Sink>(sink: &mut S, value: u64)
    ensures { S.kept sink.new ≡ put (uleb value) (S.kept sink.old) }
{
    if value < 128 {
        sink.byte(value as u8);
    } else {
        write_leb(sink, value, 128);
    }
}

/// Writes an index in signed LEB128.
pub fn write_signed<S: Sink>(sink: &mut S, value: u32)
    ensures { S.kept sink.new ≡ put (sleb value) (S.kept sink.old) }
{
    write_leb(sink, value as u64, 64);
}

/// Writes the length of what was written since the sink had taken `end` bytes.
pub fn close<S: Sink>(sink: &mut S, end: u64)
    ensures { (before : Kept) (body : List ℕ) → Taken before end → S.kept sink.old ≡ put body before → S.kept sink.new ≡ put (framed body) before }
{
    let length = sink.length().saturating_sub(end);
    write_unsigned(sink, length);
}

/// Writes bytes behind their length.
#[inline(always)]
#[tactic(auto, using(crate::proofs::Puts::put_put))]
pub fn write_framed<S: Sink>(sink: &mut S, bytes: &[u8])
    ensures { S.kept sink.new ≡ put (framed bytes.now) (S.kept sink.old) }
{
    sink.bytes(bytes);
    write_unsigned(sink, bytes.len() as u64);
}

/// Writes a text behind its length.
#[inline(always)]
pub fn write_text<S: Sink>(sink: &mut S, text: &str)
    ensures { S.kept sink.new ≡ put (framed text.now) (S.kept sink.old) }
{
    write_framed(sink, text.as_bytes());
}
