//! Random calls: the plain member, the quick one, a quick one that receives without copies, and where histories have room two that keep
//! none answer each alike, whatever is received, and end with the same history, of which one without history handed out each entry.
//!
//! Each run is a member of a group of its own, so many times, among some other members whose frames get lost, are copied and come in
//! another order, with forged and damaged ones between them. `checks/agreement.sh` runs the same with more and longer runs.

mod calls;
mod dice;
mod forging;
mod kinds;
mod world;

use crate::agreement::calls::{Call, Made, answer, arrival_text, counted, group_of};
use crate::agreement::dice::Dice;
use crate::agreement::forging::{Target, damaged, forged};
use crate::agreement::kinds::{Noting, core_of};
use crate::agreement::world::World;
use bytes::Bytes;
use cb_history::{ArriveRefusal, Entry, Event, Group, GroupMember, History, Message};
use cb_member::{CoreMember, Member, Received};
use cb_reference::ReferenceMember;
use std::alloc::Global;
use std::process::Abort;
use std::test::Fail;

/// How many runs there are, the calls of each, and the seed of the first.
const RUNS: u32 = 130;

const CALLS: u32 = 40;

const SEED: u32 = 1;

/// No run has as many entries.
const ROOM: usize = 100_000;

/// A payload that has a byte too many, and payloads that have it together.
const TOO_LONG: &[u8] = &[0; 1_025];

const TOO_LONG_TOGETHER: &[&[u8]] = &[&[0; 1_000], &[0; 25]];

/// A payload too many.
const EMPTY: &[u8] = b"";

const TOO_MANY: &[&[u8]] = &[EMPTY; 33];

/// A member without history, by the calls that hand out entries and by the others.
#[derive(Drop)]
struct Cores {
    noting: Noting,
    silent: CoreMember,
}

impl Cores {
    fn new(alloc: Global, group: Group, me: u32) -> Result<Cores, Fail> {
        Ok(Cores {
            noting: Noting::made(alloc, group, me)?,
            silent: core_of(alloc, group, me)?,
        })
    }

    /// Where histories have room.
    fn within(alloc: Global, group: Group, me: u32, limit: usize) -> Result<Option<Cores>, Fail> {
        if limit < ROOM {
            return Ok(None);
        }
        Ok(Some(Cores::new(alloc, group, me)?))
    }

    /// Both answer as expected.
    fn call<R: Abort>(
        &mut self,
        rt: &R,
        alloc: Global,
        call: Call<'_>,
        expected: String,
    ) -> Result<(), Fail> {
        if matches!(call, Call::Entries) {
            drop(says(rt, self.noting.answer(alloc, call), expected)?);
            return Ok(());
        }
        let expected = says(rt, self.noting.answer(alloc, call), expected)?;
        drop(says(rt, self.silent_answer(alloc, call), expected)?);
        Ok(())
    }

    fn silent_answer(&mut self, alloc: Global, call: Call<'_>) -> Result<String, Fail> {
        let text = kinds::answer(alloc, &mut self.silent, call)?;
        match call {
            Call::Cast(_) | Call::Burst(_) | Call::Take(_) | Call::Tick => self
                .noting
                .counted(alloc, text),
            _ => Ok(text),
        }
    }
}

/// One member in each form. The reader is a quick one once more, which receives what arrives at the other.
#[derive(Drop)]
struct Forms {
    plain: ReferenceMember,
    quick: Member,
    reader: Member,
    cores: Option<Cores>,
}

impl Forms {
    fn new(alloc: Global, group: Group, me: u32, limit: usize) -> Result<Forms, Fail> {
        Ok(Forms {
            plain: ReferenceMember::made(alloc, group, me, limit)?,
            quick: Member::made(alloc, group, me, limit)?,
            reader: Member::made(alloc, group, me, limit)?,
            cores: Cores::within(alloc, group, me, limit)?,
        })
    }

    /// All answer alike.
    fn call<R: Abort>(&mut self, rt: &R, alloc: Global, call: Call<'_>) -> Result<(), Fail> {
        let plain = answer(alloc, &mut self.plain, call)?;
        let plain = says(rt, answer(alloc, &mut self.quick, call), plain)?;
        let reader = answer_without_copies(alloc, &mut self.reader, call);
        let plain = says(rt, reader, plain)?;
        match &mut self.cores {
            Some(cores) => cores.call(rt, alloc, call, plain),
            None => Ok(()),
        }
    }

    /// The frame of the last entry, where the member sent it to all.
    fn sent(&self) -> Result<Option<Bytes>, Fail> {
        match self.quick.history().last() {
            Some(Entry::Cast { frame: sent } | Entry::Tick { status: sent }) => {
                Ok(Some(sent.clone()?))
            }
            Some(Entry::Arrive { .. }) | None => Ok(None),
        }
    }

    fn has_same_events(&self) -> Result<bool, Fail> {
        let plain = GroupMember::events(&self.plain)?;
        Ok(are_same_events(&plain, self.quick.events()))
    }
}

/// What was handed out is the history and the events.
fn are_as_handed_out(cores: &Cores, member: &Member) -> bool {
    cores.noting.entries() == member.history()
        && are_same_events(cores.noting.events(), member.events())
}

/// What the member answers, where what arrives is received.
fn answer_without_copies(
    alloc: Global,
    member: &mut Member,
    call: Call<'_>,
) -> Result<String, Fail> {
    match call {
        Call::Take(bytes) => {
            let received = member.receive(&Bytes::copy_from_slice(alloc, bytes)?);
            let text = received_text(alloc, received, member.events())?;
            counted(alloc, member, text)
        }
        _ => answer(alloc, member, call),
    }
}

/// The text of an arrival of which so many messages were delivered as it is said, the last ones of the events.
fn received_text(
    alloc: Global,
    received: Result<Received, ArriveRefusal>,
    events: &[Event],
) -> Result<String, Fail> {
    match received {
        Ok(received) => {
            let deliveries = last_messages(alloc, count_said(&received), events)?;
            arrival_text(alloc, &Ok(received.arrival(deliveries)))
        }
        Err(refusal) => arrival_text(alloc, &Err(refusal)),
    }
}

fn count_said(received: &Received) -> usize {
    match received {
        Received::Accepted { delivered, .. } => *delivered,
        Received::Repeat => 0,
    }
}

fn last_messages(alloc: Global, count: usize, events: &[Event]) -> Result<Vec<Message>, Fail> {
    let mut messages = Vec::new(alloc);
    for event in events.iter().skip(events.len().saturating_sub(count)) {
        messages.push(event.message().copy()?)?;
    }
    Ok(messages)
}

/// Gives back what was expected.
fn says(rt: &impl Abort, said: Result<String, Fail>, expected: String) -> Result<String, Fail> {
    let said = said?;
    assert_eq!(rt; said.as_str(), expected.as_str());
    drop(said);
    Ok(expected)
}

fn are_same_events(plain: &[Event], quick: &[Event]) -> bool {
    plain.len() == quick.len() && plain.iter().zip(quick).all(is_same)
}

/// The events are of one kind, with the same message.
fn is_same(events: (&Event, &Event)) -> bool {
    match events {
        (Event::Cast(one), Event::Cast(other)) | (Event::Deliver(one), Event::Deliver(other)) => {
            is_same_message(one, other)
        }
        (Event::Cast(_), Event::Deliver(_)) | (Event::Deliver(_), Event::Cast(_)) => false,
    }
}

/// The messages have the same name, time and payload.
fn is_same_message(one: &Message, other: &Message) -> bool {
    one.name == other.name
        && one.time.as_slice() == other.time.as_slice()
        && one.payload == other.payload
}

/// A cast that no member makes.
fn too_long(dice: &mut Dice) -> Call<'static> {
    match dice.below(3) {
        0 => Call::Cast(TOO_LONG),
        1 => Call::Burst(TOO_LONG_TOGETHER),
        _ => Call::Burst(TOO_MANY),
    }
}

fn random_group(size: u32, dice: &mut Dice) -> Result<Group, Fail> {
    let number = dice.near(299);
    let window = dice.below(8).saturating_add(1);
    group_of(number, size, window)
}

/// A history that is soon full, now and then.
fn random_limit(dice: &mut Dice) -> usize {
    if dice.one_in(4) {
        dice.place(20).saturating_add(1)
    } else {
        ROOM
    }
}

/// A member under test, among others.
#[derive(Drop)]
struct Trial {
    forms: Forms,
    world: World,
    group: Group,
    me: u32,
    /// One frame in so many is forged.
    honesty: u32,
}

impl Trial {
    fn new(alloc: Global, size: u32, dice: &mut Dice) -> Result<Trial, Fail> {
        let group = random_group(size, dice)?;
        let me = dice.below(size);
        let limit = random_limit(dice);
        let honesty = dice.below(10).saturating_add(1);
        let world = World::new(alloc, group, me)?;
        Trial::with(
            world,
            Forms::new(alloc, group, me, limit),
            group,
            me,
            honesty,
        )
    }

    /// Takes the forms as they were made, so that no other exit has them to drop.
    fn with(
        world: World,
        forms: Result<Forms, Fail>,
        group: Group,
        me: u32,
        honesty: u32,
    ) -> Result<Trial, Fail> {
        match forms {
            Ok(forms) => Ok(Trial {
                forms,
                world,
                group,
                me,
                honesty,
            }),
            Err(fail) => Err(fail),
        }
    }

    /// A frame that was sent, a damaged one, or a forged one.
    fn frame(&self, alloc: Global, dice: &mut Dice) -> Result<Bytes, Fail> {
        if dice.one_in(self.honesty) {
            let target = Target {
                group: self.group,
                me: self.me,
                time: self.forms.quick.time().as_slice(),
            };
            return forged(alloc, &target, dice);
        }
        let frame = self.world.frame(dice)?;
        if dice.one_in(8) {
            damaged(alloc, &frame, dice)
        } else {
            Ok(frame)
        }
    }

    /// A call of any kind.
    fn call<R: Abort>(&mut self, rt: &R, alloc: Global, dice: &mut Dice) -> Result<(), Fail> {
        match dice.below(36) {
            0..=2 => self.send(rt, alloc, Call::Cast(&[dice.byte()])),
            3 => self.send_burst(rt, alloc, dice),
            4 => self.forms.call(rt, alloc, too_long(dice)),
            5 | 6 => self.send(rt, alloc, Call::Tick),
            7 | 8 => {
                let member = dice.below(self.group.size());
                self.forms.call(rt, alloc, Call::Missing(member))
            }
            9 => self.forms.call(rt, alloc, Call::Stable),
            10 => self.forms.call(rt, alloc, Call::Time),
            11 | 12 => {
                let member = dice.below(self.group.size());
                self.forms.call(rt, alloc, Call::StableOf(member))
            }
            13 | 14 => {
                let member = dice.below(self.group.size());
                self.forms.call(rt, alloc, Call::Help(member))
            }
            _ => {
                let frame = self.frame(alloc, dice)?;
                self.forms.call(rt, alloc, Call::Take(&frame))
            }
        }
    }

    /// A burst of up to four payloads, sometimes of none.
    fn send_burst<R: Abort>(&mut self, rt: &R, alloc: Global, dice: &mut Dice) -> Result<(), Fail> {
        let bytes = [dice.byte(), dice.byte(), dice.byte()];
        let payloads: [&[u8]; 4] = [&bytes[..1], &[], &bytes[1..], &bytes];
        let count = dice.place(5).min(payloads.len());
        self.send(rt, alloc, Call::Burst(&payloads[..count]))
    }

    /// A call that sends a frame to the others.
    fn send<R: Abort>(&mut self, rt: &R, alloc: Global, call: Call<'_>) -> Result<(), Fail> {
        self.forms.call(rt, alloc, call)?;
        match self.forms.sent()? {
            Some(frame) => self.world.keep(frame),
            None => Ok(()),
        }
    }

    /// So many calls, with the others doing something between them.
    fn calls<R: Abort>(&mut self, rt: &R, alloc: Global, dice: &mut Dice) -> Result<(), Fail> {
        for _ in 0..CALLS {
            for _ in 0..dice.below(5) {
                self.world.act(alloc, dice)?;
            }
            self.call(rt, alloc, dice)?;
        }
        Ok(())
    }

    fn calls_compared<R: Abort>(
        &mut self,
        rt: &R,
        alloc: Global,
        dice: &mut Dice,
    ) -> Result<(), Fail> {
        self.calls(rt, alloc, dice)?;
        self.compare(rt, alloc)
    }

    fn into_forms(self) -> Forms {
        self.forms
    }

    /// All that is read of both is the same in the end.
    fn compare<R: Abort>(&mut self, rt: &R, alloc: Global) -> Result<(), Fail> {
        for call in [Call::Time, Call::Stable, Call::Entries] {
            self.forms.call(rt, alloc, call)?;
        }
        for member in 0..=self.group.size() {
            self.forms.call(rt, alloc, Call::Missing(member))?;
            self.forms.call(rt, alloc, Call::StableOf(member))?;
            self.forms.call(rt, alloc, Call::Help(member))?;
        }
        assert_eq!(rt;
            self.forms.quick.stable_of(self.me),
            Some(self.forms.quick.stable())
        );
        assert!(rt; self.forms.has_same_events()?);
        assert!(rt; are_same_events(self.forms.reader.events(), self.forms.quick.events()));
        if let Some(cores) = &self.forms.cores {
            assert!(rt; are_as_handed_out(cores, &self.forms.quick));
        }
        Ok(())
    }
}

/// The histories that all end with.
fn end(rt: &impl Abort, forms: Forms) {
    let Forms {
        plain,
        quick,
        reader,
        cores,
    } = forms;
    drop(cores);
    let quick = quick.into_history();
    are_same_histories(rt, &quick, &plain.into_history());
    are_same_histories(rt, &quick, &reader.into_history());
}

fn are_same_histories(rt: &impl Abort, quick: &History, plain: &History) {
    assert_eq!(rt; quick.me, plain.me);
    assert!(rt; quick.group == plain.group);
    assert!(rt; quick.entries.as_slice() == plain.entries.as_slice());
}

fn play<R: Abort>(rt: &R, alloc: Global, size: u32, seed: u32) -> Result<(), Fail> {
    let mut dice = Dice::new(seed);
    let mut trial = Trial::new(alloc, size, &mut dice)?;
    trial.calls_compared(rt, alloc, &mut dice)?;
    end(rt, trial.into_forms());
    Ok(())
}

/// Each size from 2 to 8, and 64.
fn size_for(seed: u32) -> u32 {
    match seed.checked_rem(8) {
        Some(rest @ 0..=6) => rest.saturating_add(2),
        Some(_) | None => 64,
    }
}

#[test]
fn both_members_answer_random_calls_alike(rt: HostRuntime) -> Result<(), Fail> {
    for seed in SEED..SEED.saturating_add(RUNS) {
        play(&rt, rt.alloc(), size_for(seed), seed)?;
    }
    Ok(())
}
