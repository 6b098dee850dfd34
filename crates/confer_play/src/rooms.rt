//! A group whose members hold a conference.
//!
//! After each step the conference of the member that took it is shown what the member cast and delivered by
//! it, as its events have it. Who casts a line composes it in its own conference; a screen has 20 lines.

ghost use Rattle.std.specs.Prelude.{◌≡◌, ◌≢◌, ◌≤◌, ◌+◌, [], IfOk, OnOk, MatchOption, drop, length, string_bytes};
ghost use Rattle.std.specs.List.{AllByRecursion};
ghost use Rattle.cb_rooms.specs.declared.fault.ComposeFault.TheVariants as compose_faults;
ghost use Rattle.cb_rooms.specs.Conference.{held};
ghost use Rattle.cb_rooms.specs.Line.{fields_of};
ghost use Rattle.cb_rooms.specs.View.{screen_text};
ghost use Rattle.cb_frames.specs.Fields.{One};
ghost use Rattle.cb_schedules.specs.Schedule.{CastStep};
ghost use Rattle.cb_world.specs.Steps.{step_fields};
ghost use Rattle.cb_world.specs.World.{and_step};
ghost use Rattle.confer_play.specs.Rooms.{AreNamed};
ghost use Rattle.confer_play.specs.Playing.{setting_in, new_group, view_in, lines_with, Composes, ComesOf, CatchUp, CatchesUp, IsNew, AreShown};

use crate::script::Setting;
use bytes::Bytes;
use cb_member::Event;
use cb_rooms::{ComposeFault, Conference, Line};
use cb_times::NoMemory;
use cb_world::{PlayFault, Step, World};
use confer_text::{SCREEN, new_conference, show_message};
use std::alloc::{AllocError, Global};

/// What became of a line that a member was to compose and cast.
#[derive(Clone, Copy)]
pub enum Composed {
    /// It was composed; the outcome of its cast is the last outcome of the group.
    Cast,
    /// There is no such member.
    NoSuchMember,
    /// It has no place in the member's conference, or no payload. Nothing was cast.
    Refused(ComposeFault),
}

/// A member's conference, and how many of the member's events it was shown.
#[derive(Drop)]
struct Attendance {
    conference: Conference,
    shown: usize,
}

/// A group, and a conference for each of its members.
#[derive(Drop)]
pub struct Rooms {
    world: World,
    attendances: Vec<Attendance>,
}

impl Rooms {
    /// A group in which nothing has happened.
    pub fn new(alloc: Global, setting: Setting) -> Result<Rooms, NoMemory>
        ensures world { IfOk result (λ rooms. rooms.world ≡ new_group (setting_in setting)) }
        ensures shown { IfOk result (λ rooms. AreShown rooms.world rooms.attendances.items) }
    {
        let world = new_world(alloc, setting)?;
        match new_attendances(alloc, setting.group.size()) {
            Ok(attendances) => Ok(Rooms { world, attendances }),
            Err(refused) => {
                // A call of `drop` takes the prover less time than a value that is left to the end.
                drop(world);
                Err(refused)
            }
        }
    }

    /// The group.
    pub fn world(&self) -> &World
        ensures { result.now ≡ self.now.world }
    {
        &self.world
    }

    /// The group takes a step, and the member to whom it happened is shown what it cast and delivered by it:
    /// so each conference is shown just its member's events, each once. The only error is out of memory,
    /// after which the group may have taken the step.
    #[tactic(auto, using(crate::proofs::Shown::step_shows))]
    pub fn step(&mut self, step: &Step) -> Result<(), NoMemory>
        ensures world { OnOk result (self.new.world
            ≡ and_step self.old.world (step_fields step.now)) }
        ensures shown { OnOk result (AreShown self.old.world self.old.attendances.items
            → AreShown self.new.world self.new.attendances.items) }
    {
        self.world.step(step)?;
        let member = step.member();
        match self.world.events(member) {
            Some(events) => catch_up(&mut self.attendances, member, events),
            None => Ok(()),
        }
    }

    /// Composes a line in the member's conference, over what the member cast and delivered so far, and casts
    /// it. The only error is out of memory.
    #[tactic(auto, using(crate::proofs::Shown::nobody_composes))]
    pub fn compose(&mut self, member: u32, line: &Line<'_>) -> Result<Composed, NoMemory>
        ensures world { OnOk result (AreShown self.old.world self.old.attendances.items
            → ComesOf (Composes member (fields_of line.now)) self.old.world self.new.world) }
        ensures shown { OnOk result (AreShown self.old.world self.old.attendances.items
            → AreShown self.new.world self.new.attendances.items) }
    {
        let Some(attendance) = self.attendances.get(member as usize) else {
            return Ok(Composed::NoSuchMember);
        };
        match attendance.conference.compose(line) {
            Ok(payload) => self.cast(member, payload),
            Err(fault) => not_composed(fault),
        }
    }

    /// The member casts this payload.
    fn cast(&mut self, member: u32, payload: Vec<u8>) -> Result<Composed, NoMemory>
        ensures world { OnOk result (self.new.world
            ≡ and_step self.old.world (CastStep member (One payload.items))) }
        ensures shown { OnOk result (AreShown self.old.world self.old.attendances.items
            → AreShown self.new.world self.new.attendances.items) }
    {
        let payload = Bytes::from_vec(payload).map_err(AllocError::from)?;
        let step = Step::Cast(member, payload);
        let taken = self.step(&step);
        drop(step);
        match taken {
            Ok(()) => Ok(Composed::Cast),
            Err(refused) => Err(refused),
        }
    }

    /// The screen of the member's conference, or None where there is no such member. The only error is out of
    /// memory.
    pub fn screen(&self, member: u32) -> Result<Option<String>, NoMemory>
        ensures { AreShown self.now.world self.now.attendances.items
            → IfOk result (λ screen. MatchOption screen (self.now.world.setting.group.size ≤ member)
            (λ text. string_bytes text ≡ screen_text SCREEN (view_in self.now.world member))) }
    {
        match self.attendances.get(member as usize) {
            Some(attendance) => Ok(Some(attendance.conference.screen()?)),
            None => Ok(None),
        }
    }
}

impl Attendance {
    /// Shows the conference those of the member's events that it was not shown.
    fn catch_up(&mut self, events: &[Event]) -> Result<(), NoMemory>
        requires { AreNamed events.now }
        ensures { OnOk result (CatchesUp events.now self.old self.new) }
    {
        show_all(&mut self.conference, behind(events, self.shown))?;
        self.shown = events.len();
        Ok(())
    }
}

/// What becomes of a line that has no payload. Out of memory is no fault of the line.
fn not_composed(fault: ComposeFault) -> Result<Composed, NoMemory>
    ensures { OnOk result (fault ≢ compose_faults.NoMemory) }
{
    match fault {
        ComposeFault::NoMemory => Err(AllocError),
        _ => Ok(Composed::Refused(fault)),
    }
}

/// The events behind the first so many.
fn behind(events: &[Event], shown: usize) -> &[Event]
    ensures { result.now ≡ drop shown events.now }
{
    if shown < events.len() {
        let (_, news) = events.split_at(shown);
        news
    } else {
        &[]
    }
}

/// The member's conference is shown those of its events that it was not shown. No other conference is shown
/// anything.
fn catch_up(
    attendances: &mut Vec<Attendance>,
    member: u32,
    events: &[Event],
) -> Result<(), NoMemory>
    requires { AreNamed events.now }
    ensures { OnOk result (CatchUp attendances.old.items member events.now attendances.new.items) }
{
    match attendances.get_mut(member as usize) {
        Some(attendance) => attendance.catch_up(events),
        None => Ok(()),
    }
}

/// Shows the conference these events, one after the other.
fn show_all(conference: &mut Conference, events: &[Event]) -> Result<(), NoMemory>
    requires { AreNamed events.now }
    ensures { OnOk result (conference.new
        ≡ held conference.old.screen (lines_with conference.old.lines events.now)) }
{
    for event in events {
        show_message(conference, event.message())?;
    }
    Ok(())
}

fn new_world(alloc: Global, setting: Setting) -> Result<World, NoMemory>
    ensures { IfOk result (λ world. world ≡ new_group (setting_in setting)) }
{
    match World::new(alloc, setting.group, setting.history_max) {
        Ok(world) => Ok(world),
        Err(PlayFault::NoMemory) => Err(AllocError),
        Err(PlayFault::BadLimit) => unreachable!("it is the limit of a script"),
    }
}

fn new_attendances(alloc: Global, size: u32) -> Result<Vec<Attendance>, NoMemory>
    ensures many { IfOk result (λ attendances. length attendances.items ≡ size) }
    ensures new { IfOk result (λ attendances. AllByRecursion IsNew attendances.items) }
{
    let mut attendances = Vec::with_capacity(alloc, size as usize)?;
    for _ in 0..size {
        if let Err(refused) = add_attendance(alloc, &mut attendances) {
            drop(attendances);
            return Err(refused);
        }
    }
    Ok(attendances)
}

/// One attendance more, to which nothing was shown.
fn add_attendance(alloc: Global, attendances: &mut Vec<Attendance>) -> Result<(), NoMemory>
    ensures many { OnOk result (length attendances.new.items ≡ length attendances.old.items + 1) }
    ensures new { OnOk result (AllByRecursion IsNew attendances.old.items
        → AllByRecursion IsNew attendances.new.items) }
{
    let attendance = Attendance {
        conference: new_conference(alloc)?,
        shown: 0,
    };
    attendances.push(attendance).map_err(AllocError::from)
}
