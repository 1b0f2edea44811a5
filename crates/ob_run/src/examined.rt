//! What a run met: the text that it was about, and the store.
use crate::refusal::StoreRefusal;
use ob_base::ProgramFault;
use ob_front::Seen;
use ob_store::Store;
use std::alloc::Global;
use std::cell::Cell;

/// How much a store holds when it is opened.
#[derive(Clone, Copy)]
pub struct Opened {
    /// The objects.
    pub objects: usize,
    /// The handles.
    pub handles: usize,
}

/// What a run has seen of a program's text and of a store. A person is told of them by it; what the run claims doesn't speak of it.
#[derive(Drop)]
pub struct Examined<'a> {
    /// The text of the command's file, as far as it was read; None where none was.
    pub text: Option<Vec<u8>>,
    /// The fault for which the text is refused; None where it isn't.
    pub fault: Option<ProgramFault>,
    /// What the stages made of the text.
    pub seen: Seen,
    /// Why the store is refused; None where it isn't.
    pub refusal: Option<StoreRefusal>,
    /// Where it is put how much the store holds, once it is opened and before a line is read; None where nobody asks.
    pub opened: Option<&'a Cell<Option<Opened>>>,
}

impl<'a> Examined<'a> {
    /// No text was seen yet, and nobody asks for what a store holds.
    pub fn nothing(alloc: Global) -> Self {
        Examined {
            text: None,
            fault: None,
            seen: Seen::new(alloc),
            refusal: None,
            opened: None,
        }
    }

    // Notes how much a store holds that was opened.
    pub(crate) fn note_opened(&self, store: &Store) {
        if let Some(opened) = self.opened {
            let content = store.content();
            opened.set(Some(Opened {
                objects: content.objects().len(),
                handles: content.count_handles(),
            }));
        }
    }
}
