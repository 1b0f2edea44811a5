//! A store that is opened.
ghost use Rattle.std.specs.Prelude.{string_bytes, IfOk};
ghost use Rattle.ob_explain_page.specs.Pages.{IsPage};

use crate::lines::put_title;
use crate::watching::Front;
use ob_base::{MOST_HANDLES, MOST_OBJECTS, Memory};
use ob_explain_page::{Page, Words};
use std::alloc::Global;

/// What is known of a store that is opened.
#[derive(Clone, Copy)]
pub struct Opening {
    /// What stood on its disk.
    pub front: Front,
    /// How many objects it holds.
    pub objects: usize,
    /// How many handles it holds.
    pub handles: usize,
    /// How many bytes each of its areas has at most.
    pub area: u64,
}

/// How much of something there is.
#[derive(Clone, Copy)]
struct Filled {
    count: u64,
    most: u64,
    // What is counted, and what to do.
    what: &'static str,
}

impl Filled {
    // How many parts of a hundred there are.
    fn percent(&self) -> u64 {
        self.count.saturating_mul(100) / self.most.max(1)
    }
}

// How much of its current area is used. Where that is full the store moves into the other one.
fn used_of(opening: Opening) -> Filled {
    Filled {
        count: opening.front.used as u64,
        most: opening.area,
        what: " bytes used (",
    }
}

// What may be filled.
fn bounds_of(opening: Opening) -> [Filled; 3] {
    [
        Filled {
            count: opening.front.moved as u64,
            most: opening.area,
            what: " bytes were taken by all that it held when it last moved. No command makes room: see 'A full store' in docs/GUIDE.md",
        },
        Filled {
            count: opening.objects as u64,
            most: MOST_OBJECTS as u64,
            what: " objects exist, and none is ever taken away: begin a new store before they are all there",
        },
        Filled {
            count: opening.handles as u64,
            most: MOST_HANDLES as u64,
            what: " handles exist: `disown` some",
        },
    ]
}

// How many there are of how many.
fn put_part_of(title: &mut Words, filled: Filled) {
    title.put_number(filled.count);
    title.put(" of ");
    title.put_number(filled.most);
    title.put(filled.what);
}

// What is said of a store that is begun. Scripts read it, so the words stay as they are, also for one byte.
fn say_begun(title: &mut Words, length: u64) {
    if length == 0 {
        title.put("a new store, since there was no such file, or an empty one");
    } else {
        title.put("a new store, begun over what stood there, ");
        title.put_number(length);
        title.put(" bytes");
    }
}

// What is said of a store that was there. Scripts read it, so the words stay as they are, also for one object.
fn say_held(title: &mut Words, opening: Opening) {
    let used = used_of(opening);
    title.put_number(opening.objects as u64);
    title.put(" objects, ");
    title.put_number(opening.handles as u64);
    title.put(" handles, ");
    title.put_number(opening.front.records);
    title.put(" records; ");
    put_part_of(title, used);
    title.put_number(used.percent());
    title.put(" %)");
}

// A warning, where nearly all is used.
fn put_warning(alloc: Global, page: &mut Page, name: &str, filled: Filled) -> Result<(), Memory> {
    if filled.percent() < 80 {
        return Ok(());
    }
    let mut title = Words::new(alloc);
    title.put("warning: ");
    put_part_of(&mut title, filled);
    put_title(page, name, title)
}

// A store that was there.
fn put_held(alloc: Global, page: &mut Page, name: &str, opening: Opening) -> Result<(), Memory> {
    let mut title = Words::new(alloc);
    say_held(&mut title, opening);
    put_title(page, name, title)?;
    for one in bounds_of(opening).iter() {
        put_warning(alloc, page, name, *one)?;
    }
    Ok(())
}

/// What to do about bytes behind a closed gate, by a run that has begun a store over them.
const BEGUN_OVER: &str =
    "if it was meant to be a store, end this run, write nothing more to the file, and take the last copy.";

/// The same by a run that has written nothing.
const NOT_YET: &str =
    "if it was meant to be a store, take the last copy: `serve` would begin a new one over it.";

// A warning of bytes behind a closed gate, as a copy has that was cut or a file of another kind, and what to do.
fn put_covered(
    alloc: Global,
    page: &mut Page,
    name: &str,
    length: u64,
    help: &str,
) -> Result<(), Memory> {
    let mut title = Words::new(alloc);
    title.put("warning: bytes behind a closed gate: ");
    title.put_number(length.saturating_sub(1));
    title.put(", not all of them 0");
    put_title(page, name, title)?;
    page.put_words(
        "  note: ",
        "the first byte is 0, so the file is taken for an empty store.",
    )?;
    page.put_words("  help: ", help)
}

// A store that is begun over what stood on its disk.
fn put_begun(alloc: Global, page: &mut Page, name: &str, front: Front) -> Result<(), Memory> {
    let mut title = Words::new(alloc);
    say_begun(&mut title, front.length);
    put_title(page, name, title)?;
    if front.covered {
        put_covered(alloc, page, name, front.length, BEGUN_OVER)?;
    }
    Ok(())
}

/// Tells of a store that is opened: that it is new, or how much it holds; a warning for each bound of which four parts of five are
/// reached, and one of bytes behind a closed gate over which a store is begun.
pub fn explain_opening(alloc: Global, name: &str, opening: Opening) -> Result<String, Memory>
    ensures { IfOk result (λ page. IsPage (string_bytes page)) }
{
    let mut page = Page::new(alloc);
    if opening.front.blank {
        put_begun(alloc, &mut page, name, opening.front)?;
    } else {
        put_held(alloc, &mut page, name, opening)?;
    }
    page.into_text()
}

/// Warns of bytes behind a closed gate of a store that is audited, by what stands on its disk. Empty where there are none.
pub fn explain_audited(alloc: Global, name: &str, front: Front) -> Result<String, Memory>
    ensures { IfOk result (λ page. IsPage (string_bytes page)) }
{
    let mut page = Page::new(alloc);
    if front.blank && front.covered {
        put_covered(alloc, &mut page, name, front.length, NOT_YET)?;
    }
    page.into_text()
}
