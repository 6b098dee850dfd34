//! Addresses that can be a group's, and some that can't.

ghost use Rattle.std.specs.Prelude.{◌≡◌};

use cb_peers::{MakeFault, Peers};
use std::io;
use std::net::{IpAddr, Ipv6Addr, SocketAddr};
use std::test::*;

fn at(port: u16) -> SocketAddr {
    SocketAddr::from(([127, 0, 0, 1], port))
}

#[test]
fn a_member_knows_its_own_address_and_the_others(rt: HostRuntime) {
    let peers = Peers::new(rt.alloc(), 3, 1, &[at(1), at(2), at(3)]).expect(&rt, "peers");
    assert!(&rt; peers.own() == at(2));
    assert!(&rt; peers.others() == [Some(at(1)), None, Some(at(3))].as_slice());
    assert!(&rt; peers.is_other(at(1)));
    assert!(&rt; !peers.is_other(at(2)), "its own is no other's");
    assert!(&rt; !peers.is_other(at(4)));
}

#[test]
fn what_is_wrong_with_addresses_is_named(rt: HostRuntime) {
    let six = SocketAddr::new(IpAddr::V6(Ipv6Addr::LOCALHOST), 3);
    let fault = |size, me, addresses: &[SocketAddr]| {
        Peers::new(rt.alloc(), size, me, addresses).err()
    };
    assert!(&rt; fault(1, 0, &[at(1)]) == Some(MakeFault::BadMember));
    assert!(&rt; fault(2, 2, &[at(1), at(2)]) == Some(MakeFault::BadMember));
    assert!(&rt; fault(3, 0, &[at(1), at(2)]) == Some(MakeFault::BadAddresses));
    assert!(&rt; fault(2, 0, &[at(1), at(1)]) == Some(MakeFault::BadAddresses));
    assert!(&rt; fault(2, 0, &[at(1), at(0)]) == Some(MakeFault::BadAddresses));
    assert!(&rt; fault(2, 0, &[at(1), six]) == Some(MakeFault::BadAddresses));
}

#[test]
fn errors_of_the_system_have_names(rt: HostRuntime) {
    for (number, fault) in [
        (98, MakeFault::AddressInUse),
        (99, MakeFault::NoRoute),
        (24, MakeFault::TooManyFiles),
        (23, MakeFault::TooManyFiles),
        (13, MakeFault::Denied),
        (12, MakeFault::NoMemory),
        (5, MakeFault::Device),
    ] {
        assert!(&rt; MakeFault::from(io::Error::from_raw_os_error(number)) == fault);
    }
}
