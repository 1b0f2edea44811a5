//! What is counted.
ghost use Rattle.std.specs.Prelude.{◌≡◌, ◌<◌, ◌≤◌, ◌^◌, drop, length, List};
ghost use Rattle.ob_wire.specs.declared.reply.Reply.{Reply};
ghost use Rattle.ob_run.specs.Kinds.{lines_of_replies, AreWithin, counts_with, CountsReplies};

use crate::counts::Counts;
use crate::kinds::{ReplyKind, find_byte, kind_of_line};

// The bytes from a place on.
fn bytes_from(bytes: &[u8], at: usize) -> &[u8]
    requires { at ≤ length bytes.now }
    ensures { result.now ≡ drop at bytes.now }
{
    &bytes[at..]
}

// Counts one line more, with a reply of this kind.
fn count_line(counts: &mut Counts, kind: ReplyKind)
    requires within { AreWithin counts.old }
    requires few { counts.old.lines < 2 ^ 63 }
    ensures { counts.new ≡ counts_with kind counts.old }
{
    counts.lines += 1;
    match kind {
        ReplyKind::Done => counts.ok += 1,
        ReplyKind::Aborted => counts.aborted += 1,
        ReplyKind::Refused => counts.refused += 1,
    }
}

/// The numbers of these replies, one line after another, and of what a store holds.
pub fn counts_of(replies: &[u8], objects: u64, handles: u64) -> Counts
    ensures { (rs : List Reply) → replies.now ≡ lines_of_replies rs → CountsReplies rs objects handles result }
{
    let mut counts = Counts {
        lines: 0,
        ok: 0,
        aborted: 0,
        refused: 0,
        objects,
        handles,
    };
    let mut rest = replies;
    'lines: while let Some(end) = find_byte(rest, b'\n') {
        count_line(&mut counts, kind_of_line(&rest[..end]));
        rest = bytes_from(rest, end + 1);
    }
    counts
}
