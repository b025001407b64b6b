//! Cuts of links, and processes that stop.

ghost use Rattle.std.specs.Prelude.{◌≡◌, ◌<◌, ◌==◌, ◌&&◌, IfSome, IsSome, Some, length, option_and_then};
ghost use Rattle.std.specs.Str.{bytes_eq};
ghost use Rattle.abstract_run.specs.inner.Among.{AreAmong, HasChannels};
ghost use Rattle.abstract_run.specs.inner.Does.{Changes};
ghost use Rattle.abstract_run.specs.Channels as spec;
ghost use Rattle.abstract_run.specs.Step as step;

use crate::channels::place_of;
use crate::guards::is_live;
use crate::state::{Channel, Falling, State};
use tap_base::List;

/// After so many further sends the link of the process is to fail.
pub(crate) fn cut(state: &mut State, process: u32, sends: u32) -> bool
    ensures { Changes (step.cut_off state.old process sends) state.old result state.new }
{
    let at = process as usize;
    if at >= state.cuts.len() {
        return false;
    }
    state.cuts.set(at, Some(sends));
    true
}

/// The process is down, and its cut is gone.
fn put_down(state: &mut State, process: u32)
    ensures { state.new ≡ step.put_down state.old process }
{
    let at = process as usize;
    if at < state.down.len() {
        state.down.set(at, true);
    }
    if at < state.cuts.len() {
        state.cuts.set(at, None);
    }
    state.falling = None;
}

/// The process stops at once, where the cut of its link is 0.
pub(crate) fn stop(state: &mut State, process: u32, receivers: &[u32]) -> bool
    ensures { Changes (step.stopped state.old process receivers.now) state.old result state.new }
{
    let is_cut = matches!(state.cuts.get(process as usize), Some(Some(0)));
    if !is_live(state, process) || !is_cut || receivers.len() > 0 {
        return false;
    }
    put_down(state, process);
    true
}

fn drop_last(channel: &mut Channel)
    ensures { channel.new ≡ spec.last_gone channel.old }
{
    let _ = channel.cells.pop();
}

fn drop_last_at(channels: &mut List<Channel>, at: usize)
    requires { at < length channels.old }
    ensures { spec.changed_at at (λ c. Some (spec.last_gone c)) channels.old ≡ Some channels.new }
{
    drop_last(&mut channels.items[at]);
}

/// The last cell to each of the receivers goes, once for each time that it is named.
fn take_back(processes: usize, channels: &mut List<Channel>, from: u32, receivers: &[u32])
    requires among { AreAmong processes channels.old }
    requires can { IsSome (spec.taken_back from receivers.now channels.old) }
    ensures { spec.taken_back from receivers.now channels.old ≡ Some channels.new }
{
    let Some((first, rest)) = receivers.split_first() else {
        return;
    };
    let Some(at) = place_of(processes, channels, from, *first) else {
        unreachable!()
    };
    drop_last_at(channels, at);
    take_back(processes, channels, from, rest);
}

fn is_due(falling: &Falling, process: u32, receivers: &[u32]) -> bool
    ensures { result ≡ (falling.now.process == process && bytes_eq falling.now.receivers receivers.now) }
{
    falling.process == process && falling.receivers.as_slice() == receivers
}

/// The process whose link failed within its action stops, and its sends that failed are taken back.
pub(crate) fn fall(state: &mut State, process: u32, receivers: &[u32]) -> bool
    requires channels { HasChannels state.old }
    requires can { IfSome state.old.falling (λ f. IsSome (spec.taken_back f.process f.receivers state.old.channels)) }
    ensures { Changes (option_and_then (λ f. step.fallen state.old f process receivers.now) state.old.falling) state.old result state.new }
{
    let Some(falling) = &state.falling else {
        return false;
    };
    if !is_due(falling, process, receivers) {
        return false;
    }
    take_back(state.down.len(), &mut state.channels, process, receivers);
    put_down(state, process);
    true
}
