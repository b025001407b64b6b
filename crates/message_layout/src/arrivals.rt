//! What may come to each process from each other, in order.

ghost use Rattle.std.specs.Prelude.{◌≡◌, IfOk, map, not};
ghost use Rattle.message_layout.specs.inner.Arrivals.{AreArrivals, AreBetween, AreInOrder, arrival_of, stands_before, stands_behind};

use std::alloc::Global;
use tap_base::{List, NoMemory, Receive};

/// A message that `to` receives from `from`. Arrivals are ordered by receiver, then peer, then message.
#[derive(Clone, Copy, Debug, PartialEq, Eq, PartialOrd, Ord)]
pub struct Arrival {
    pub to: u32,
    pub from: u32,
    pub message: u32,
}

fn each_arrival(alloc: Global, receives: &[Receive]) -> Result<Vec<Arrival>, NoMemory>
    ensures { IfOk result (λ found. found.items ≡ map arrival_of receives.now) }
{
    let mut found = Vec::new(alloc);
    'receives: for receive in receives {
        found.push(Arrival {
            to: receive.by,
            from: receive.from,
            message: receive.message,
        })?;
    }
    Ok(found)
}

/// The messages that may come, in order, each once.
pub(crate) fn arrivals_of(alloc: Global, receives: &[Receive]) -> Result<List<Arrival>, NoMemory>
    ensures { IfOk result (λ arrivals. AreArrivals receives.now arrivals) }
{
    let mut found = each_arrival(alloc, receives)?;
    found.sort_unstable();
    found.dedup();
    Ok(List::from_vec(found))
}

fn is_before(arrival: &Arrival, to: u32, from: u32) -> bool
    ensures { result ≡ stands_before arrival.now to from }
{
    arrival.to < to || arrival.to == to && arrival.from < from
}

fn is_behind(arrival: &Arrival, to: u32, from: u32) -> bool
    ensures { result ≡ stands_behind arrival.now to from }
{
    to < arrival.to || arrival.to == to && from < arrival.from
}

/// Those arrivals that are of `to` and `from`.
pub(crate) fn between(arrivals: &[Arrival], to: u32, from: u32) -> &[Arrival]
    requires { AreInOrder arrivals.now }
    ensures { AreBetween arrivals.now to from result.now }
{
    let first = arrivals.partition_point(|arrival| is_before(arrival, to, from));
    let end = arrivals.partition_point(|arrival| !is_behind(arrival, to, from));
    &arrivals[first..end]
}
