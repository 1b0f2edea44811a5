//! Laws of the lines of replies.
ghost use Rattle.std.specs.Prelude.{◌≡◌, ℕ, List, IsTrue};
ghost use Rattle.ob_wire.specs.Replies.{reply_line};
ghost use Rattle.ob_wire.specs.declared.reply.Reply.{Reply};
ghost use Rattle.ob_client.specs.Told.{is_reply, Tells};
ghost use Rattle.ob_client.specs.Reordered.{MayBeGiven, TellsReordered};

/// Laws: the line of a reply tells this reply, up to the order of the fields of an object that is shown where they don't stand in the
/// order of their names; and a line tells one reply at most.
pub fn replies_are_told()
    ensures told { (reply : Reply) → IsTrue (is_reply reply) → Tells (reply_line reply) reply }
    ensures reordered { (reply : Reply) → MayBeGiven reply → TellsReordered (reply_line reply) reply }
    ensures one { (line : List ℕ) (first second : Reply) → Tells line first → Tells line second → first ≡ second }
{}
