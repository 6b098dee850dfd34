//! A link over UDP on the loopback address: one frame in each datagram.
//!
//! Each member has a socket to receive on and one to send from, with ports that the system chose.

ghost use Rattle.std.specs.Prelude.{◌≡◌, IfOk, length};

use crate::link::{ANY_PORT, Inlet, LinkFault, Offered, Outlet, Received};
use crate::waits::wait;
use bytes::Bytes;
use cb_frames::{FrameBlock, LONGEST_FRAME};
use cb_history::Outgoing;
use std::alloc::{AllocError, Global};
use std::io;
use std::io::ErrorKind;
use std::net::{Net, SocketAddr, UdpSocket};
use std::sync::Wait;
use std::time::Clock;

/// The room for a datagram: one byte more than the longest frame, so that a longer datagram is seen
/// to be no frame.
const ROOM: usize = 1_457;

const _: () = prove!(ROOM == LONGEST_FRAME + 1);

/// Links over UDP.
#[derive(Clone, Copy, Debug)]
pub struct UdpLink;

/// Where the frames of the others come from.
#[derive(Drop)]
pub struct UdpInlet {
    socket: UdpSocket,
    /// For a datagram.
    room: [u8; ROOM],
    failures: u64,
    /// Where the next frames come to lie.
    block: FrameBlock,
}

/// Where the frames of a member go.
#[derive(Drop)]
pub struct UdpOutlet {
    socket: UdpSocket,
    /// The addresses of all members, in the order of their numbers.
    to: Vec<SocketAddr>,
    me: usize,
    failures: u64,
}

impl UdpLink {
    /// A link for each member of a group of this size, in the order of their numbers.
    pub fn group<N: Net>(
        net: &N,
        alloc: Global,
        size: u32,
    ) -> Result<Vec<(UdpInlet, UdpOutlet)>, LinkFault>
        ensures { IfOk result (λ links. length links.items ≡ size) }
    {
        let mut addresses = Vec::new(alloc);
        let mut links = Vec::new(alloc);
        for me in 0..size {
            links.push(unlinked(net, alloc, me, &mut addresses)?)?;
        }
        link_all(&addresses, &mut links)?;
        Ok(links)
    }
}

/// The link of this member, whose outlet has no addresses yet; the address of its inlet is added to
/// them.
fn unlinked<N: Net>(
    net: &N,
    alloc: Global,
    me: u32,
    addresses: &mut Vec<SocketAddr>,
) -> Result<(UdpInlet, UdpOutlet), LinkFault> {
    let inlet = UdpInlet {
        socket: socket(net)?,
        room: [0; ROOM],
        failures: 0,
        block: FrameBlock::new(alloc),
    };
    addresses.push(inlet.socket.local_addr()?)?;
    let outlet = UdpOutlet {
        socket: socket(net)?,
        to: Vec::new(alloc),
        me: me as usize,
        failures: 0,
    };
    Ok((inlet, outlet))
}

fn link_all(
    addresses: &Vec<SocketAddr>,
    links: &mut [(UdpInlet, UdpOutlet)],
) -> Result<(), LinkFault> {
    for link in links {
        link.1.to = addresses.clone()?;
    }
    Ok(())
}

/// A socket that waits for nothing.
fn socket<N: Net>(net: &N) -> io::Result<UdpSocket> {
    let socket = UdpSocket::bind(net, ANY_PORT)?;
    socket.set_nonblocking(true)?;
    Ok(socket)
}

impl Inlet for UdpInlet {
    ghost failed = { λ inlet. inlet.failures };

    fn failures(&self) -> u64 {
        self.failures
    }

    fn receive<R: Wait + Clock>(&mut self, rt: &R) -> Result<Received, LinkFault> {
        match self.socket.recv(&mut self.room) {
            Ok(count) => match self.block.lodge(&self.room[..count]) {
                Ok(frame) => Ok(Received::Frame(frame)),
                Err(AllocError) => Err(LinkFault::NoMemory),
            },
            Err(error) => match error.kind() {
                ErrorKind::WouldBlock | ErrorKind::Interrupted => {
                    wait(rt);
                    Ok(Received::Nothing)
                }
                _ => {
                    self.failures = self.failures.saturating_add(1);
                    Err(LinkFault::Device)
                }
            },
        }
    }
}

impl Outlet for UdpOutlet {
    ghost failed = { λ outlet. outlet.failures };

    fn failures(&self) -> u64 {
        self.failures
    }

    fn send<R: Wait>(&mut self, _rt: &R, out: &Outgoing) -> Result<(), LinkFault> {
        let offered = match out.to {
            Some(member) => offer(&self.socket, self.to.get(member as usize), &out.bytes),
            None => self.offer_to_all(&out.bytes),
        };
        self.failures = self.failures.saturating_add(offered.failures);
        offered.result()
    }
}

impl UdpOutlet {
    /// Offers the frame to all others.
    fn offer_to_all(&self, frame: &Bytes) -> Offered {
        let mut offered = Offered::taken();
        for (member, address) in self.to.iter().enumerate() {
            if member != self.me {
                offered = offered.and(offer(&self.socket, Some(address), frame));
            }
        }
        offered
    }
}

/// Offers the frame to one member; there is none for a number that is no member's.
fn offer(socket: &UdpSocket, to: Option<&SocketAddr>, frame: &Bytes) -> Offered {
    let Some(address) = to else {
        return Offered::failed();
    };
    Offered::of_datagram(socket.send_to(frame.as_slice(), *address))
}
