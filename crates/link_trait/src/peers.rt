//! Which process a link speaks for, and the addresses of all, in place.

ghost use Rattle.std.specs.Prelude.{◌≡◌, ◌≤◌, length, Some, None};
ghost use Rattle.link_trait.specs.MemoryLink.{ShowsBound};

use crate::datagram::Address;
use crate::fronts::copy_front;
use std::marker::Model;

/// How many processes a system has at most.
const MOST: usize = 64;

const NOWHERE: Address = Address {
    ip: [0; 4],
    port: 0,
};

/// A process number and the addresses of all processes, once they are bound.
#[derive(Debug, Drop)]
pub(crate) struct Peers {
    me: Option<u32>,
    addresses: [Address; MOST],
    count: usize,
}

impl Model for Peers {
    ghost use Rattle.std.specs.Prelude.{◌≤◌, Option, take};
    ghost use Rattle.std.specs.Option.{option_map};
    ghost use Rattle.link_trait.specs.Link.{Binding};

    ghost Value = { Option Binding };

    ghost view = { λ p. option_map (λ me. record { me = me; peers = take p.count p.addresses }) p.me };

    ghost invariant = { λ p. p.count ≤ 64 };
}

impl Peers {
    /// Nothing is bound.
    pub(crate) fn new() -> Peers
        ensures { result ≡ None }
    {
        Peers {
            me: None,
            addresses: [NOWHERE; MOST],
            count: 0,
        }
    }

    /// Binds a process, in place of another.
    pub(crate) fn bind(&mut self, me: u32, addresses: &[Address])
        requires { length addresses.now ≤ 64 }
        ensures { self.new ≡ Some (record { me = me; peers = addresses.now }) }
    {
        self.count = copy_front(addresses, &mut self.addresses);
        self.me = Some(me);
    }

    /// The process that is bound, with the addresses of all.
    pub(crate) fn shown(&self) -> Option<(u32, &[Address])>
        ensures { ShowsBound self.now result }
    {
        let me = self.me?;
        Some((me, &self.addresses[..self.count]))
    }
}
