//! A process that is bound to its socket.

ghost use Rattle.std.specs.Prelude.{◌≡◌, ◌≢◌, ◌↔◌, ◌≤◌, length, min, take, true, None, Some, IfSome};
ghost use Rattle.std.specs.IoError.{error_kind};
ghost use Rattle.std.specs.declared.io.ErrorKind.TheVariants.{WouldBlock};
ghost use Rattle.link_trait.specs.Link.{IsWithin};
ghost use Rattle.link_trait.specs.declared.datagram.Arrived.TheVariants as arrived;

use link_trait::{Address, Arrived};
use std::io;
use std::io::ErrorKind;
use std::marker::Model;
use std::net::{Ipv4Addr, SocketAddr, SocketAddrV4, UdpSocket};
use std::time::Duration;

/// How many processes a system has at most.
const MOST: usize = 64;

const NOWHERE: Address = Address {
    ip: [0; 4],
    port: 0,
};

/// A process with its socket, and the addresses of all processes.
#[derive(Drop)]
pub struct Bound {
    socket: UdpSocket,
    me: u32,
    peers: [Address; MOST],
    count: usize,
}

impl Model for Bound {
    ghost use Rattle.std.specs.Prelude.{◌≤◌, take};
    ghost use Rattle.link_trait.specs.Link.{Binding};

    ghost Value = { Binding };

    ghost view = { λ b. record { me = b.me; peers = take b.count b.peers } };

    ghost invariant = { λ b. b.count ≤ 64 };
}

impl Bound {
    /// Opens the socket of a process at its address; none where that fails, or the process has no address. There are at
    /// most 64 addresses.
    pub fn open(rt: &HostRuntime, me: u32, peers: &[Address]) -> Option<Bound>
        requires few { length peers.now ≤ 64 }
        ensures { IfSome result (λ b. b ≡ record { me = me; peers = peers.now }) }
    {
        let mine = peers.get(me as usize)?;
        let socket = UdpSocket::bind(rt, socket_address(*mine)).ok()?;
        let mut kept = [NOWHERE; MOST];
        let count = copy_front(peers, &mut kept);
        Some(Bound {
            socket,
            me,
            peers: kept,
            count,
        })
    }

    /// Whether it is this process, with these addresses.
    pub fn is_of(&self, me: u32, peers: &[Address]) -> bool
        ensures { (result ≡ true) ↔ (self.now ≡ record { me = me; peers = peers.now }) }
    {
        self.me == me && self.peers() == peers
    }

    /// The addresses of all processes.
    fn peers(&self) -> &[Address]
        ensures { result.now ≡ self.now.peers }
    {
        &self.peers[..self.count]
    }

    /// Sends a datagram to a process, whole; none where that fails, or the process has no address.
    pub fn send(&self, to: u32, bytes: &[u8]) -> Option<()> {
        let address = self.peers().get(to as usize)?;
        self.socket.set_nonblocking(false).ok()?;
        let count = self.socket.send_to(bytes, socket_address(*address)).ok()?;
        (count == bytes.len()).then_some(())
    }

    /// Waits for a datagram, so many milliseconds at most, and takes its front into the buffer; none where that fails.
    pub fn receive(&self, patience: u32, buf: &mut [u8]) -> Option<Arrived>
        ensures within { IfSome result (IsWithin (length buf.new)) }
    {
        self.wait_for(patience).ok()?;
        match self.socket.recv_from(buf) {
            Ok((len, from)) => Some(self.arrived(from, len)),
            Err(error) => without_datagram(&error),
        }
    }

    /// Lets the next receive call wait so many milliseconds at most.
    fn wait_for(&self, patience: u32) -> io::Result<()> {
        if patience == 0 {
            return self.socket.set_nonblocking(true);
        }
        self.socket.set_nonblocking(false)?;
        let patience = Duration::from_millis(u64::from(patience));
        self.socket.set_read_timeout(Some(patience))
    }

    /// A datagram of so many bytes from an address: it is a stranger's where no other process has it.
    fn arrived(&self, from: SocketAddr, len: usize) -> Arrived
        ensures within { IsWithin len result }
    {
        match self.other_at(from) {
            Some(from) => Arrived::Got { from, len },
            None => Arrived::Stranger,
        }
    }

    /// The first process but this one that has an address.
    fn other_at(&self, address: SocketAddr) -> Option<u32>
        ensures other { IfSome result (λ n. n ≢ self.now.me) }
    {
        for (number, peer) in (0..).zip(self.peers()) {
            if number != self.me && socket_address(*peer) == address {
                return Some(number);
            }
        }
        None
    }
}

/// Copies the front of `from` into the front of `to`, as much as both have, and says how much.
fn copy_front(from: &[Address], to: &mut [Address]) -> usize
    ensures count { result ≡ min (length from.now) (length to.new) }
    ensures front { take result to.new ≡ take result from.now }
{
    let count = from.len().min(to.len());
    to[..count].copy_from_slice(&from[..count]);
    count
}

fn socket_address(address: Address) -> SocketAddr {
    SocketAddr::V4(SocketAddrV4::new(Ipv4Addr::from(address.ip), address.port))
}

/// What a receive call found that got this error: nothing, where only its patience ended; none, where it failed.
fn without_datagram(error: &io::Error) -> Option<Arrived>
    ensures nothing { (result ≡ Some arrived.Nothing) ↔ (error_kind error.now ≡ WouldBlock) }
    ensures failed { (result ≡ None) ↔ (error_kind error.now ≢ WouldBlock) }
{
    (error.kind() == ErrorKind::WouldBlock).then_some(Arrived::Nothing)
}
