//! Where an accepted text lets go of assets without saying so.

use crate::holding::{name_of_kind, say};
use ob_explain_page::{Words, shown_at};
use ob_flow::{Letting, LettingAt};
use ob_table::Table;

/// Says how assets are let go at a place of the text.
pub fn say_letting(words: &mut Words, text: &[u8], table: &Table, at: LettingAt) {
    let shown = shown_at(text, at.span);
    match at.letting {
        Letting::Shared(kind) => {
            say(words, &["`", shown, "` owns "]);
            words.put_a(name_of_kind(table, kind));
            words.put(
                " and is shared from here on: nobody owns that asset again, and it may be lost",
            );
        }
        Letting::Disowned(kind) => say(
            words,
            &[
                "`",
                shown,
                "` is disowned together with the assets that the fields of this `",
                name_of_kind(table, kind),
                "` may own",
            ],
        ),
        Letting::Made(kind) => say(
            words,
            &[
                "this `",
                name_of_kind(table, kind),
                "` shares itself and nothing refers to it: the assets that its fields own are out of reach",
            ],
        ),
    }
}
