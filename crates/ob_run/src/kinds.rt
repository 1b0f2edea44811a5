//! Of which kind a reply is.
ghost use Rattle.std.specs.Prelude.{◌≡◌, ◌≢◌, ◌<◌, ◌==◌, length, slice_get, MatchBool, MatchOption, Some, ⊤};
ghost use Rattle.std.specs.List.{position};
ghost use Rattle.serde_json.specs.Written.{compact_text};
ghost use Rattle.ob_wire.specs.Replies.{reply_json};
ghost use Rattle.ob_wire.specs.declared.reply.Reply.{Reply};
ghost use Rattle.ob_run.specs.Kinds.{kind_of};

/// The kind of an answer.
#[derive(Clone, Copy)]
pub enum ReplyKind {
    /// The request was done.
    Done,
    /// It was begun and undone.
    Aborted,
    /// Nothing was begun.
    Refused,
}

// The place of the first of these bytes.
pub(crate) fn find_byte(bytes: &[u8], wanted: u8) -> Option<usize>
    ensures place { result ≡ position (λ b. b == wanted) bytes.now }
    ensures within { MatchOption result ⊤ (λ at. at < length bytes.now) }
{
    bytes.iter().position(|b| *b == wanted)
}

// Whether this byte stands at a place.
fn has_byte(bytes: &[u8], at: usize, wanted: u8) -> bool
    ensures { MatchBool result (slice_get bytes.now at ≡ Some wanted) (slice_get bytes.now at ≢ Some wanted) }
{
    at < bytes.len() && bytes[at] == wanted
}

/// The kind of the reply whose line this is, without its newline. The first key of an abort is `abort`. The first of the others is `id`,
/// which has no comma, and the next is `ok` or `refused`.
pub fn kind_of_line(line: &[u8]) -> ReplyKind
    ensures { (reply : Reply) → line.now ≡ compact_text (reply_json reply) → result ≡ kind_of reply.answer }
{
    if has_byte(line, 2, b'a') {
        return ReplyKind::Aborted;
    }
    let Some(comma) = find_byte(line, b',') else {
        return ReplyKind::Refused;
    };
    if has_byte(line, comma + 2, b'o') {
        return ReplyKind::Done;
    }
    ReplyKind::Refused
}
