//! The connections on which frames go to the others.

ghost use Rattle.std.specs.Prelude.{◌≡◌, IfOk, map, set};
ghost use Rattle.cb_remote.specs.Offering.{IsOffered, end_of};

use bytes::Bytes;
use cb_history::Outgoing;
use cb_links::{Going, Offered};
use std::alloc::{AllocError, Global};
use std::net::{SocketAddr, TcpStream};

/// The connections, in the order of the members' numbers.
#[derive(Drop)]
pub struct Ends {
    to: Vec<End>,
}

/// Where the frames to a member go.
#[derive(Drop)]
enum End {
    /// It is the member itself, to whom none go.
    Own,
    /// There is no connection with it now.
    Down,
    Up(Going<TcpStream>),
}

impl Ends {
    /// No connection with any of the others, who have these addresses.
    pub fn new(alloc: Global, others: &[Option<SocketAddr>]) -> Result<Ends, AllocError>
        ensures { IfOk result (λ ends. ends.to.items ≡ map end_of others.now) }
    {
        let mut to = Vec::with_capacity(alloc, others.len())?;
        for address in others {
            to.push(end_at(address))?;
        }
        Ok(Ends { to })
    }

    /// From now on frames to this member go there.
    pub fn open(&mut self, member: usize, going: Going<TcpStream>)
        ensures { self.new.to.items ≡ set self.old.to.items member (End.Up going) }
    {
        if member < self.to.len() {
            self.to[member] = End::Up(going);
        }
    }

    /// There is no connection with this member any more.
    pub fn close(&mut self, member: usize)
        ensures { self.new.to.items ≡ set self.old.to.items member End.Down }
    {
        if member < self.to.len() {
            self.to[member] = End::Down;
        }
    }

    /// Writes what connections have not taken yet of the frames that they took last.
    pub fn flush(&mut self) {
        for end in &mut self.to {
            if let End::Up(going) = end {
                going.write();
            }
        }
    }

    /// Offers the frame to those to whom it is.
    pub fn offer(&mut self, out: &Outgoing) -> Offered {
        match out.to {
            Some(member) => self.offer_to(member, &out.bytes),
            None => self.offer_to_all(&out.bytes),
        }
    }

    /// Offers the frame to one member; it can't be sent to the member itself, nor to a number that
    /// is no member's.
    fn offer_to(&mut self, member: u32, frame: &Bytes) -> Offered {
        match self.to.get_mut(member as usize) {
            Some(End::Own) | None => Offered::failed(),
            Some(end) => end.offer(frame),
        }
    }

    /// Offers the frame to all others.
    fn offer_to_all(&mut self, frame: &Bytes) -> Offered {
        let mut offered = Offered::taken();
        for end in &mut self.to {
            offered = offered.and(end.offer(frame));
        }
        offered
    }
}

fn end_at(address: &Option<SocketAddr>) -> End
    ensures { result ≡ end_of address.now }
{
    match address {
        Some(_address) => End::Down,
        None => End::Own,
    }
}

impl End {
    /// Offers the frame to this member, where it is another one.
    fn offer(&mut self, frame: &Bytes) -> Offered
        ensures { IsOffered self.old self.new frame.now result }
    {
        match self {
            End::Own => Offered::taken(),
            End::Down => Offered::failed(),
            End::Up(going) => Offered::of(going.send(frame.as_slice())),
        }
    }
}
