//! The text is passed from player to player.

use crate::bare::Bare;
use crate::copying::Copying;
use crate::frames::Frames;
use crate::lines::{put_calls, put_shown};
use crate::player::{Player, put_played};
use crate::receiving::Receiving;
use crate::resumed::Resumed;
use crate::seat::Seat;
use cb_member::Member;
use cb_reference::ReferenceMember;
use cb_times::NoMemory;
use std::alloc::Global;
use std::mem;

/// The text that is passed on.
#[derive(Drop)]
pub struct Suite {
    alloc: Global,
    text: Vec<u8>,
}

impl Suite {
    /// The calls of an input.
    pub fn of(alloc: Global, input: &[u8]) -> Result<Suite, NoMemory> {
        let mut text = Vec::new(alloc);
        put_calls(&mut text, input)?;
        Ok(Suite { alloc, text })
    }

    /// Has all players answer, each after the others.
    pub fn play(&mut self) -> Result<(), NoMemory> {
        self.round::<Frames>()?;
        self.round::<Seat<Receiving>>()?;
        self.round::<Seat<Copying<Member>>>()?;
        self.round::<Seat<Resumed>>()?;
        self.round::<Seat<Bare>>()?;
        self.round::<Seat<Copying<ReferenceMember>>>()
    }

    /// Writes the text as it is to be shown. Whether there is no fault.
    pub fn show(&self, output: &mut Vec<u8>) -> Result<bool, NoMemory> {
        put_shown(output, &self.text)
    }

    fn round<P: Player>(&mut self) -> Result<(), NoMemory> {
        let text = mem::replace(&mut self.text, Vec::new(self.alloc));
        let played = put_played::<P>(self.alloc, &text, &mut self.text);
        drop(text);
        played
    }
}
