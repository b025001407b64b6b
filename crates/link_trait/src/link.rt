//! Where datagrams come from and go to.

ghost use Rattle.std.specs.Prelude.{◌≡◌, ◌≤◌, ℕ, List, Option, length, IfOk};
ghost use Rattle.link_trait.specs.declared.datagram.Delivered.{Delivered};
ghost use Rattle.link_trait.specs.declared.datagram.Posted.{Posted};
ghost use Rattle.link_trait.specs.Link.{Binding, Follows, IsWithin, Plan, Receives, SpeaksFor, bound_after, one_send_less, send_falls, sent_after};
ghost use Rattle.link_trait.specs.Outside.{HasCause};

use crate::datagram::{Address, Arrived};
use crate::failed::Failed;

/// Where the datagrams of one process come from and go to.
///
/// Each `Failed` comes only where the count of faults rose in that call, and every other answer leaves
/// the count as it was. A link may leave all else untold. Its lists are told for each process number,
/// because a link over one stream knows its peer by that number alone. Where a process is bound, `send`
/// and `recv` speak of its lists, and else of those of every number.
pub trait Link {
    /// The datagrams that wait for a process, the first one first, where told.
    ghost pending: { Self → ℕ → Option (List Delivered) };

    /// The datagrams that a process sent, where told.
    ghost sent: { Self → ℕ → Option (List Posted) };

    /// Which process is bound, with the addresses of all, where told.
    ghost bound: { Self → Option (Option Binding) };

    /// Which coming calls are to fail, where told.
    ghost plan: { Self → Option Plan };

    /// The count of faults.
    ghost faults: { Self → ℕ };

    /// Speaks for the process `me` from now on, or on `Failed` for the one that it spoke for. There is one
    /// address for each process, and at most 64 of them. What waits and what was sent stays.
    fn bind(&mut self, me: u32, peers: &[Address]) -> Result<(), Failed>
        requires few { length peers.now ≤ 64 }
        ensures pending { pending self.new me ≡ pending self.old me }
        ensures sent { sent self.new me ≡ sent self.old me }
        ensures bound { bound self.new ≡ bound_after (bound self.old) (record { me = me; peers = peers.now }) result }
        ensures plan { Follows (plan self.old) (λ p. p.bind) (λ p. p) result (plan self.new) }
        ensures cause { HasCause (faults self.old) (faults self.new) result };

    /// Sends a datagram to a process. On `Failed` nothing was sent.
    fn send(&mut self, to: u32, bytes: &[u8]) -> Result<(), Failed>
        ensures pending { (n : ℕ) → SpeaksFor (bound self.old) n → pending self.new n ≡ pending self.old n }
        ensures sent { (n : ℕ) → SpeaksFor (bound self.old) n → sent self.new n ≡ sent_after (sent self.old n) (record { to = to; bytes = bytes.now }) result }
        ensures bound { bound self.new ≡ bound self.old }
        ensures plan { Follows (plan self.old) (send_falls bytes.now) one_send_less result (plan self.new) }
        ensures cause { HasCause (faults self.old) (faults self.new) result };

    /// Takes the first datagram that waits, or waits for one, `patience` milliseconds at most. Of one that
    /// is longer than the buffer, the front is kept. `Nothing` is answered where none came, and `Failed`
    /// takes none.
    fn recv(&mut self, patience: u32, buf: &mut [u8]) -> Result<Arrived, Failed>
        ensures within { IfOk result (IsWithin (length buf.new)) }
        ensures pending { (n : ℕ) → SpeaksFor (bound self.old) n → Receives (pending self.old n) result buf.new (pending self.new n) }
        ensures sent { (n : ℕ) → SpeaksFor (bound self.old) n → sent self.new n ≡ sent self.old n }
        ensures bound { bound self.new ≡ bound self.old }
        ensures plan { Follows (plan self.old) (λ p. p.recv) (λ p. p) result (plan self.new) }
        ensures cause { HasCause (faults self.old) (faults self.new) result };
}
