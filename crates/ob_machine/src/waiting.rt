//! Frames that wait, the newest last.
ghost use Rattle.std.specs.Prelude.{◌≡◌, [], ◌∷◌, OnOk, MatchOption};
ghost use Rattle.ob_machine.specs.Shown.{frame_of, frames_of};

use crate::frame::Frame;
use ob_base::{Items, Memory};

// A frame waits.
#[tactic(auto, using(crate::proofs::WaitingLemmas::frames_newest))]
pub fn push_frame(frames: &mut Items<Frame>, frame: Frame) -> Result<(), Memory>
    ensures { OnOk result (frames_of frames.new ≡ frame_of frame ∷ frames_of frames.old) }
{
    match frames.push(frame) {
        Ok(()) => Ok(()),
        Err(_) => Err(Memory),
    }
}

// The newest frame waits no longer.
#[tactic(auto, using(crate::proofs::WaitingLemmas::frames_newest))]
pub fn pop_frame(frames: &mut Items<Frame>) -> Option<Frame>
    ensures { MatchOption result ((frames_of frames.old ≡ []) × (frames_of frames.new ≡ [])) (λ frame. frames_of frames.old ≡ frame_of frame ∷ frames_of frames.new) }
{
    frames.pop()
}
