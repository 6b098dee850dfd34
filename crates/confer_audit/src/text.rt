//! The script of a joint order.

ghost use Rattle.std.specs.Prelude.{◌≡◌, ◌++◌, IfOk, OnOk, map};
ghost use Rattle.std.specs.List.{flat_map};
ghost use Rattle.cb_frames.specs.Fields.{One, Many};
ghost use Rattle.cb_schedules.specs.Schedule.{CastStep, ArriveStep, TickStep, HelpStep};
ghost use Rattle.cb_world.specs.Steps.{step_fields};
ghost use Rattle.confer_audit.specs.Audit.{first_text, digits_text, load_text, payload_word, script_text, step_text};

use bytes::Bytes;
use cb_member::{Group, NoMemory};
use cb_trace::Joint;
use cb_world::Step;
use confer_text::{put_hex, put_parameter};
use std::alloc::Global;

/// The script of the joint order: run by `confer play`, it leaves each member with just its history.
#[tactic(auto, unfolding(crate::specs::Audit::script_text))]
pub fn script_of(alloc: Global, group: Group, joint: &Joint) -> Result<Vec<u8>, NoMemory>
    requires { joint.now.setting.group ≡ group }
    ensures { IfOk result (λ text. text.items ≡ script_text joint.now) }
{
    let mut out = Vec::new(alloc);
    put_first(&mut out, group, joint.history_max())?;
    put_steps(&mut out, joint.steps())?;
    Ok(out)
}

/// The line of the group, with the limit of its histories.
#[tactic(auto, unfolding(crate::specs::Audit::first_text))]
fn put_first(out: &mut Vec<u8>, group: Group, history_max: usize) -> Result<(), NoMemory>
    ensures { OnOk result (out.new.items ≡ out.old.items
        ++ first_text (record { group = group; limit = history_max })) }
{
    put_parameter(out, b"group ", group.number() as usize)?;
    put_parameter(out, b" size ", group.size() as usize)?;
    put_parameter(out, b" window ", group.window() as usize)?;
    put_parameter(out, b" history ", history_max)?;
    out.extend_from_slice(b"\n")
}

fn put_steps(out: &mut Vec<u8>, steps: &[Step]) -> Result<(), NoMemory>
    ensures { OnOk result (out.new.items ≡ out.old.items
        ++ flat_map step_text (map step_fields steps.now)) }
{
    for step in steps {
        put_step(out, step)?;
    }
    Ok(())
}

fn put_step(out: &mut Vec<u8>, step: &Step) -> Result<(), NoMemory>
    ensures { OnOk result (out.new.items ≡ out.old.items ++ step_text (step_fields step.now)) }
{
    match step {
        Step::Cast(i, payload) => put_cast(out, *i, payload),
        Step::Burst(i, payloads) => put_burst(out, *i, payloads),
        Step::Arrive(j, number) => put_arrive(out, *j, *number),
        Step::Tick(i) => put_tick(out, *i),
        Step::Help(j, i) => put_help(out, *j, *i),
    }
}

#[tactic(auto, unfolding(crate::specs::Audit::step_text))]
fn put_cast(out: &mut Vec<u8>, i: u32, payload: &Bytes) -> Result<(), NoMemory>
    ensures { OnOk result (out.new.items
        ≡ out.old.items ++ step_text (CastStep i (One payload.now))) }
{
    put_parameter(out, b"cast ", i as usize)?;
    out.extend_from_slice(b" ")?;
    put_digits(out, payload)?;
    out.extend_from_slice(b"\n")
}

#[tactic(auto, unfolding(crate::specs::Audit::step_text))]
fn put_burst(out: &mut Vec<u8>, i: u32, payloads: &[Bytes]) -> Result<(), NoMemory>
    ensures { OnOk result (out.new.items
        ≡ out.old.items ++ step_text (CastStep i (Many payloads.now))) }
{
    put_parameter(out, b"burst ", i as usize)?;
    put_payloads(out, payloads)?;
    out.extend_from_slice(b"\n")
}

/// The payloads of a burst, each behind a space.
fn put_payloads(out: &mut Vec<u8>, payloads: &[Bytes]) -> Result<(), NoMemory>
    ensures { OnOk result (out.new.items ≡ out.old.items ++ load_text (Many payloads.now)) }
{
    for payload in payloads {
        put_behind_space(out, payload)?;
    }
    Ok(())
}

fn put_behind_space(out: &mut Vec<u8>, payload: &Bytes) -> Result<(), NoMemory>
    ensures { OnOk result (out.new.items ≡ out.old.items ++ payload_word payload.now) }
{
    out.extend_from_slice(b" ")?;
    put_digits(out, payload)
}

#[tactic(auto, unfolding(crate::specs::Audit::step_text))]
fn put_arrive(out: &mut Vec<u8>, j: u32, number: usize) -> Result<(), NoMemory>
    ensures { OnOk result (out.new.items ≡ out.old.items ++ step_text (ArriveStep j number)) }
{
    put_parameter(out, b"arrive ", j as usize)?;
    put_parameter(out, b" ", number)?;
    out.extend_from_slice(b"\n")
}

#[tactic(auto, unfolding(crate::specs::Audit::step_text))]
fn put_tick(out: &mut Vec<u8>, i: u32) -> Result<(), NoMemory>
    ensures { OnOk result (out.new.items ≡ out.old.items ++ step_text (TickStep i)) }
{
    put_parameter(out, b"tick ", i as usize)?;
    out.extend_from_slice(b"\n")
}

#[tactic(auto, unfolding(crate::specs::Audit::step_text))]
fn put_help(out: &mut Vec<u8>, j: u32, i: u32) -> Result<(), NoMemory>
    ensures { OnOk result (out.new.items ≡ out.old.items ++ step_text (HelpStep j i)) }
{
    put_parameter(out, b"help ", j as usize)?;
    put_parameter(out, b" ", i as usize)?;
    out.extend_from_slice(b"\n")
}

/// The digits of a payload, or a dash for none.
fn put_digits(out: &mut Vec<u8>, payload: &Bytes) -> Result<(), NoMemory>
    ensures { OnOk result (out.new.items ≡ out.old.items ++ digits_text payload.now) }
{
    if payload.is_empty() {
        return out.extend_from_slice(b"-");
    }
    put_hex(out, payload.as_slice())
}
