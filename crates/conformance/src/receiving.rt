//! A member that keeps its history, by the calls that make no copies of what they deliver.

use crate::call::Reading;
use crate::copying::{burst, cast, tick};
use crate::readings::read_member;
use crate::seat::{Place, Seated};
use crate::texts::{put_help, put_received};
use bytes::Bytes;
use cb_member::{Member, NewFault};
use cb_times::NoMemory;
use std::alloc::Global;

/// A member that takes received bytes by `receive`: its deliveries are read from its events.
#[derive(Drop)]
pub struct Receiving {
    member: Member,
}

impl Seated for Receiving {
    fn name() -> Option<&'static str> {
        None
    }

    fn seated(alloc: Global, place: Place) -> Result<Option<Receiving>, NewFault> {
        let member = Member::new(alloc, place.group, place.me, place.room())?;
        Ok(Some(Receiving { member }))
    }

    fn cast(&mut self, payload: &[u8], text: &mut Vec<u8>) -> Result<(), NoMemory> {
        cast(&mut self.member, payload, text)
    }

    fn burst(&mut self, payloads: &[&[u8]], text: &mut Vec<u8>) -> Result<(), NoMemory> {
        burst(&mut self.member, payloads, text)
    }

    fn take(&mut self, bytes: &Bytes, text: &mut Vec<u8>) -> Result<(), NoMemory> {
        let answer = self.member.receive(bytes);
        let put = put_received(text, answer.as_ref(), self.member.events());
        drop(answer);
        put
    }

    fn tick(&mut self, text: &mut Vec<u8>) -> Result<(), NoMemory> {
        tick(&mut self.member, text)
    }

    fn read(&self, reading: Reading, text: &mut Vec<u8>) -> Result<(), NoMemory> {
        read_member(&self.member, reading, text)
    }

    fn help_among(&self, i: u32, members: &[u32], text: &mut Vec<u8>) -> Result<(), NoMemory> {
        put_help(text, &self.member.help_among(i, members))
    }
}
