//! Slices of a run.
ghost use Rattle.std.specs.Prelude.{◌≡◌, option_map, IsSome, IfOk, IfSome, OnOk};
ghost use Rattle.ob_heap.specs.Overlays.{KeepsUnread, no_object};
ghost use Rattle.ob_machine_laws.specs.Laws.{HasToldFrames};
ghost use Rattle.ob_machine_steps.specs.Runs.{IsSoundIn};
ghost use Rattle.ob_machine.specs.Phases.{phase_of, HasBegun};
ghost use Rattle.ob_machine.specs.Slicing.{Pays, Tries, StopsSo, ComesTo, stop_told};
ghost use Rattle.ob_machine.specs.Stretching.{Turns};
ghost use Rattle.ob_machine.specs.Unread.{Leaves, TurnLeaves};
ghost use Rattle.ob_machine_steps.specs.Measures.{LeadsAheadOrToUnit};

use crate::machine::Machine;
use crate::progress::Progress;
use ob_base::Memory;
use ob_code::Image;
use ob_heap::{Content, Overlay};
use ob_machine_parts::lookups::fetch;
use ob_machine_parts::off::Off;
use ob_verify::Verified;

/// What a turn of a slice comes to.
#[derive(Drop)]
pub enum Turn {
    /// The next step takes a unit, which the slice hasn't.
    Waits,
    /// The next step is made, and the slice has so many units left.
    Made(Progress, u32),
}

// What a slice has left once it has paid, if it can.
pub fn left_after(paid: bool, left: u32) -> Option<u32>
    ensures { Pays result paid left }
{
    if !paid {
        return Some(left);
    }
    if left == 0 {
        return None;
    }
    Some(left - 1)
}

impl Machine {
    // The first turn, which needs a unit.
    fn first_turn(
        &mut self,
        code: &Image,
        base: &Content,
        overlay: &mut Overlay,
        left: u32,
    ) -> Result<Turn, Off>
        requires { IsSome self.old.entry }
        ensures told { Tries result code.now left (phase_of self.old base.now.objects overlay.old) self.new base.now.objects overlay.new }
        ensures unread { HasToldFrames (phase_of self.old base.now.objects overlay.old) → OnOk result (KeepsUnread no_object overlay.old overlay.new) }
    {
        match left_after(self.run.units.has_unit(), left) {
            None => Ok(Turn::Waits),
            Some(rest) => {
                let progress = self.advance(code, base, overlay)?;
                Ok(Turn::Made(progress, rest))
            }
        }
    }

    // A later turn, which fetches its instruction once.
    fn later_turn(
        &mut self,
        code: &Image,
        base: &Content,
        overlay: &mut Overlay,
        left: u32,
    ) -> Result<Turn, Off>
        requires { HasBegun self.old }
        ensures told { Tries result code.now left (phase_of self.old base.now.objects overlay.old) self.new base.now.objects overlay.new }
        ensures unread { HasToldFrames (phase_of self.old base.now.objects overlay.old) → OnOk result (KeepsUnread no_object overlay.old overlay.new) }
    {
        let top = &self.run.top;
        let instruction = fetch(code, top.contract, top.tx, top.at)?;
        let next = top.at + 1;
        let paid = self.run.units.pays_for(instruction);
        match left_after(paid, left) {
            None => Ok(Turn::Waits),
            Some(rest) => {
                let progress = self.run.act(code, base, overlay, instruction, next)?;
                Ok(Turn::Made(progress, rest))
            }
        }
    }

    // A turn of a slice: the steps up to the next call, test or end, and then that one.
    fn turn(
        &mut self,
        code: &Image,
        base: &Content,
        overlay: &mut Overlay,
        left: u32,
    ) -> Result<Turn, Off>
        requires { LeadsAheadOrToUnit code.now }
        ensures told { Turns result code.now left (phase_of self.old base.now.objects overlay.old) self.new base.now.objects overlay.new }
        ensures unread { HasToldFrames (phase_of self.old base.now.objects overlay.old) → IfOk result (λ turn. TurnLeaves turn overlay.old overlay.new (phase_of self.new base.now.objects overlay.new)) }
    {
        if self.entry.is_some() {
            return self.first_turn(code, base, overlay, left);
        }
        match self.run.stretch(code, base, overlay, left) {
            Ok(rest) => self.later_turn(code, base, overlay, rest),
            Err(off) => Err(off),
        }
    }

    /// Runs on until the run is over, needs a unit that it has and these don't, or has no next step: then the answer is `None`.
    /// It is for verified code of which nothing else is known. Of what isn't read the entries in the overlay stay, but where there is no
    /// next step.
    pub fn try_slice(
        &mut self,
        code: &Verified,
        base: &Content,
        overlay: &mut Overlay,
        units: u32,
    ) -> Result<Option<Progress>, Memory>
        ensures comes { IfOk result (λ found. ComesTo code.now units (phase_of self.old base.now.objects overlay.old) (option_map (stop_told self.new base.now.objects overlay.new) found)) }
        ensures unread { HasToldFrames (phase_of self.old base.now.objects overlay.old) → IfOk result (λ found. IfSome found (λ progress. Leaves progress overlay.old overlay.new (phase_of self.new base.now.objects overlay.new))) }
    {
        let image = code.image();
        let mut left = units;
        'steps: loop {
            match self.turn(image, base, overlay, left) {
                Ok(Turn::Waits) => return Ok(Some(Progress::Going)),
                Ok(Turn::Made(Progress::Going, rest)) => left = rest,
                Ok(Turn::Made(Progress::Finished(result), _)) => {
                    return Ok(Some(Progress::Finished(result)));
                }
                Ok(Turn::Made(Progress::Aborted(cause), _)) => {
                    return Ok(Some(Progress::Aborted(cause)));
                }
                Err(Off::NoStep) => return Ok(None),
                Err(Off::Memory) => return Err(Memory),
            }
        }
    }

    /// Runs on until the run is over, or needs a unit that it has and these don't. Wherever the slice goes on the run must have a
    /// next step. Of what isn't read the entries in the overlay stay.
    pub fn run_slice(
        &mut self,
        code: &Verified,
        base: &Content,
        overlay: &mut Overlay,
        units: u32,
    ) -> Result<Progress, Memory>
        requires { IsSoundIn code.now units (phase_of self.old base.now.objects overlay.old) }
        ensures stops { IfOk result (λ progress. StopsSo code.now units (phase_of self.old base.now.objects overlay.old) (stop_told self.new base.now.objects overlay.new progress)) }
        ensures unread { HasToldFrames (phase_of self.old base.now.objects overlay.old) → IfOk result (λ progress. Leaves progress overlay.old overlay.new (phase_of self.new base.now.objects overlay.new)) }
    {
        match self.try_slice(code, base, overlay, units)? {
            Some(progress) => Ok(progress),
            None => unreachable!(),
        }
    }
}
