//! Tests of links to other processes, whose ends are in one: addresses, hellos, pauses, and the links themselves.
#![tactic(auto)]

#[cfg(test)]
mod addresses;
#[cfg(test)]
mod attempts;
#[cfg(test)]
mod greetings;
#[cfg(test)]
mod hellos;
#[cfg(test)]
mod places;
#[cfg(test)]
mod tcp;
#[cfg(test)]
mod udp;
