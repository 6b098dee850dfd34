//! Links of one member to members in other processes, at known addresses.
//!
//! `UdpPeers::link` and `TcpPeers::link` make the two ends of a link over UDP and over TCP. An inlet
//! sleeps in its sockets until something comes (`WaitingInlet`). Which addresses those are stands in
//! `Peers`.
//!
//! Stands on `cb_peers` for the addresses, on `cb_links` for what a link is and on `mio` for sockets
//! that are waited for. Nothing says that a frame arrives.
#![tactic(auto)]

mod ends;
mod greeter;
mod line;
mod tcp;
mod udp;

pub use cb_peers::{Disagreement, MakeFault, Peers};
pub use tcp::{Refusal, TcpPeerInlet, TcpPeerOutlet, TcpPeers};
pub use udp::{UdpPeerInlet, UdpPeerOutlet, UdpPeers};
