//! Which request an idle lane starts.
ghost use Rattle.std.specs.Prelude.{◌≡◌, ◌<◌, length, bytes_eq};
ghost use Rattle.ob_lanes.specs.Starting.{is_held, are_earlier_done, first_from, begun, are_all_done};

use crate::batch::{BatchRequest, Busy};
use ob_base::Label;

fn is_held(lanes: &[Option<Busy>], number: usize) -> bool
    ensures { result ≡ is_held number lanes.now }
{
    for lane in lanes {
        if let Some(busy) = lane {
            if number == busy.number {
                return true;
            }
        }
    }
    false
}

fn is_same_label(one: &Label, other: &Label) -> bool
    ensures { result ≡ bytes_eq one.now other.now }
{
    one.as_bytes() == other.as_bytes()
}

fn are_earlier_done(entries: &[BatchRequest], number: usize, who: &Label) -> bool
    ensures { result ≡ are_earlier_done who.now number 0 entries.now }
{
    for (at, entry) in entries.iter().enumerate() {
        if number == at {
            return true;
        }
        if is_same_label(&entry.request.who, who) && !entry.is_done {
            return false;
        }
    }
    true
}

fn first_startable(entries: &[BatchRequest], lanes: &[Option<Busy>]) -> Option<usize>
    ensures { result ≡ first_from entries.now lanes.now 0 entries.now }
{
    for (at, entry) in entries.iter().enumerate() {
        if !entry.is_done
            && !is_held(lanes, at)
            && are_earlier_done(entries, at, &entry.request.who)
        {
            return Some(at);
        }
    }
    None
}

/// An idle lane starts the first request that may start.
pub fn begin(entries: &[BatchRequest], lanes: &mut [Option<Busy>], lane: usize)
    requires { lane < length lanes.old }
    ensures { lanes.new ≡ begun entries.now lane lanes.old }
{
    if lanes[lane].is_none() {
        if let Some(number) = first_startable(entries, lanes) {
            lanes[lane] = Some(Busy { number, run: None });
        }
    }
}

/// Whether all requests are answered.
pub fn are_all_done(entries: &[BatchRequest]) -> bool
    ensures { result ≡ are_all_done entries.now }
{
    for entry in entries {
        if !entry.is_done {
            return false;
        }
    }
    true
}
