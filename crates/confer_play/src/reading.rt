//! The text of a script, read: a line for the group, and then a line for each step.
//!
//! The lines and their words are those of `docs/PROGRAM.md`. This module converts, and runs nothing.

ghost use Rattle.std.specs.Prelude.{◌≡◌, ◌==◌, ◌⊎◌, ◌++◌, ◌∷◌, ℕ, List, [], IfOk, IfErr, OnOk, codes, decimal, map};
ghost use Rattle.std.specs.List.{slice_split};
ghost use Rattle.confer_play.specs.Play.{IsNoScript};
ghost use Rattle.confer_play.specs.Playing.{order_of, setting_in};
ghost use Rattle.confer_play.specs.ScriptText.{ArePayloadWords, AreScript, EachOrders, IsFirstLine, IsScript, Orders, labelled, spaced};

use crate::fault::ScriptFault;
use crate::script::{LineFault, Script, ScriptStep, Setting, halves, number, payload};
use bytes::Bytes;
use cb_member::{Group, LONGEST_HISTORY};
use cb_rooms::Line;
use cb_times::{Name, NoMemory};
use cb_world::Step;
use std::alloc::{AllocError, Global};

/// Reads the lines, up to the first one that is not what must stand there.
#[tactic(auto, using(crate::proofs::ScriptLines::is_script))]
pub fn script_of(alloc: Global, text: &[u8]) -> Result<Script<'_>, ScriptFault>
    ensures script { IfOk result (λ script.
        IsScript text.now (setting_in script.setting) (map order_of script.steps.items)) }
    ensures fault { IfErr result IsNoScript }
{
    let lines = lines_of(alloc, ended(text))?;
    let script = script_from(alloc, &lines);
    drop(lines);
    match script {
        Ok(script) => Ok(script),
        Err(fault) => Err(fault),
    }
}

/// The text without a line feed behind its last line.
fn ended(text: &[u8]) -> &[u8]
    ensures { (text.now ≡ result.now) ⊎ (text.now ≡ result.now ++ codes "\n") }
{
    match text.split_last() {
        Some((last, ended)) if *last == b'\n' => ended,
        _ => text,
    }
}

fn lines_of(alloc: Global, text: &[u8]) -> Result<Vec<&[u8]>, NoMemory>
    ensures { IfOk result (λ lines. map (λ line. line.now) lines.items
        ≡ slice_split (λ b. b == 10) text.now) }
{
    text.split(|byte| *byte == b'\n').collect(alloc)
}

/// What these lines say.
#[tactic(auto, using(crate::proofs::ScriptLines::are_script))]
fn script_from<'a>(alloc: Global, lines: &[&'a [u8]]) -> Result<Script<'a>, ScriptFault>
    ensures script { IfOk result (λ script. AreScript (map (λ line. line.now) lines.now)
        (setting_in script.setting) (map order_of script.steps.items)) }
    ensures fault { IfErr result IsNoScript }
{
    let Some((first, lines)) = lines.split_first() else {
        return Err(LineFault::NoLine.at(1));
    };
    let setting = match setting_of(first) {
        Ok(setting) => setting,
        Err(fault) => return Err(fault.at(1)),
    };
    match steps_of(alloc, lines) {
        Ok(steps) => Ok(Script { setting, steps }),
        Err(fault) => Err(fault),
    }
}

/// What the lines behind the first one say.
#[tactic(auto, using(crate::proofs::ScriptLines::one_line_more))]
fn steps_of<'a>(alloc: Global, lines: &[&'a [u8]]) -> Result<Vec<ScriptStep<'a>>, ScriptFault>
    ensures orders { IfOk result (λ steps.
        EachOrders (map (λ line. line.now) lines.now) (map order_of steps.items)) }
    ensures fault { IfErr result IsNoScript }
{
    let mut steps = Vec::new(alloc);
    let mut number: usize = 1;
    for line in lines {
        number = number.saturating_add(1);
        if let Err(fault) = add_step(alloc, line, number, &mut steps) {
            drop(steps);
            return Err(fault);
        }
    }
    Ok(steps)
}

/// Reads a further line, of this number.
#[tactic(auto, using(crate::proofs::ScriptLines::adds_line))]
fn add_step<'a>(
    alloc: Global,
    line: &'a [u8],
    number: usize,
    steps: &mut Vec<ScriptStep<'a>>,
) -> Result<(), ScriptFault>
    ensures adds { OnOk result ((lines : List (List ℕ))
        → EachOrders lines (map order_of steps.old.items)
        → EachOrders (lines ++ (line.now ∷ [])) (map order_of steps.new.items)) }
    ensures fault { IfErr result IsNoScript }
{
    match step_of(alloc, line) {
        Ok(step) => Ok(steps.push(step).map_err(AllocError::from)?),
        Err(fault) => Err(fault.at(number)),
    }
}

/// The first line, with numbers within the limits of a group.
fn setting_of(line: &[u8]) -> Result<Setting, LineFault>
    ensures { IfOk result (λ setting. IsFirstLine line.now (setting_in setting)) }
{
    match str::from_utf8(line) {
        Ok(text) => first_of(text),
        Err(_) => Err(LineFault::NoLine),
    }
}

/// `group G size N window W history H`.
#[tactic(auto, using(crate::proofs::ScriptLines::first_line))]
fn first_of(text: &str) -> Result<Setting, LineFault>
    ensures { IfOk result (λ setting. IsFirstLine text.now (setting_in setting)) }
{
    let (group, rest) = label(text, "group")?;
    let (size, rest) = label(rest, "size")?;
    let (window, rest) = label(rest, "window")?;
    let (word, history) = split(rest)?;
    if word != "history" {
        return Err(LineFault::NoLine);
    }
    let limit = number(history)?;
    match setting_from(group, size, window, limit) {
        Ok(setting) => Ok(setting),
        Err(fault) => Err(fault),
    }
}

/// The number behind this label, and what stands behind both.
fn label<'a>(text: &'a str, label: &str) -> Result<(u32, &'a str), LineFault>
    ensures { IfOk result (λ parts. text.now ≡ labelled label.now parts.0 parts.1.now) }
{
    let (word, rest) = split(text)?;
    if word != label {
        return Err(LineFault::NoLine);
    }
    numbered(rest)
}

/// The number in the first word, and what stands behind it.
fn numbered(text: &str) -> Result<(u32, &str), LineFault>
    ensures { IfOk result (λ parts. text.now ≡ spaced (decimal parts.0) parts.1.now) }
{
    let (word, rest) = split(text)?;
    let number = number(word)?;
    Ok((number, rest))
}

/// What the numbers of the first line say, where they are within the limits.
fn setting_from(group: u32, size: u32, window: u32, history: u32) -> Result<Setting, LineFault>
    ensures { IfOk result (λ setting. setting_in setting ≡ record {
      group = record { number = group; size = size; window = window };
      limit = history;
    }) }
{
    let Ok(group) = Group::new(group, size, window) else {
        return Err(LineFault::NoLine);
    };
    let history_max = history as usize;
    if !(1..=LONGEST_HISTORY).contains(&history_max) {
        return Err(LineFault::NoLine);
    }
    Ok(Setting { group, history_max })
}

/// A further line.
fn step_of(alloc: Global, line: &[u8]) -> Result<ScriptStep<'_>, LineFault>
    ensures { IfOk result (λ step. Orders line.now (order_of step)) }
{
    match str::from_utf8(line) {
        Ok(text) => verb_of(alloc, text),
        Err(_) => Err(LineFault::NoLine),
    }
}

#[tactic(auto, using(crate::proofs::ScriptLines::behind))]
fn verb_of(alloc: Global, text: &str) -> Result<ScriptStep<'_>, LineFault>
    ensures { IfOk result (λ step. Orders text.now (order_of step)) }
{
    let (verb, rest) = split(text)?;
    match verb {
        "cast" => cast_of(alloc, rest),
        "burst" => burst_of(alloc, rest),
        "arrive" => arrive_of(rest),
        "tick" => tick_of(rest),
        "help" => help_of(rest),
        "say" => say_of(rest),
        "answer" => answer_of(rest),
        "screen" => screen_of(rest),
        _ => Err(LineFault::NoLine),
    }
}

/// `I HEX`, behind `cast`.
#[tactic(auto, using(crate::proofs::ScriptLines::says_cast))]
fn cast_of<'a>(alloc: Global, words: &'a str) -> Result<ScriptStep<'a>, LineFault>
    ensures { IfOk result (λ step. Orders (spaced (codes "cast") words.now) (order_of step)) }
{
    let (i, hex) = numbered(words)?;
    let payload = payload(alloc, hex.as_bytes())?;
    Ok(ScriptStep::Take(Step::Cast(i, payload)))
}

/// `I HEX ..`, behind `burst`: a word for each payload, and at least one.
#[tactic(auto, using(crate::proofs::ScriptLines::says_burst))]
fn burst_of<'a>(alloc: Global, words: &'a str) -> Result<ScriptStep<'a>, LineFault>
    ensures { IfOk result (λ step. Orders (spaced (codes "burst") words.now) (order_of step)) }
{
    let (i, text) = numbered(words)?;
    let payloads = payloads_in(alloc, text.as_bytes())?;
    Ok(ScriptStep::Take(Step::Burst(i, payloads)))
}

/// The payloads whose words these are, with one space between each two.
fn payloads_in(alloc: Global, text: &[u8]) -> Result<Vec<Bytes>, LineFault>
    ensures { IfOk result (λ payloads.
        ArePayloadWords (slice_split (λ b. b == 32) text.now) payloads.items) }
{
    let words = words_of(alloc, text)?;
    let payloads = payloads_of(alloc, &words);
    drop(words);
    payloads
}

fn words_of(alloc: Global, text: &[u8]) -> Result<Vec<&[u8]>, NoMemory>
    ensures { IfOk result (λ words. map (λ word. word.now) words.items
        ≡ slice_split (λ b. b == 32) text.now) }
{
    text.split(|byte| *byte == b' ').collect(alloc)
}

#[tactic(auto, using(crate::proofs::ScriptLines::one_word_more))]
fn payloads_of(alloc: Global, words: &[&[u8]]) -> Result<Vec<Bytes>, LineFault>
    ensures { IfOk result (λ payloads.
        ArePayloadWords (map (λ word. word.now) words.now) payloads.items) }
{
    let mut payloads = Vec::new(alloc);
    for word in words {
        if let Err(fault) = add_payload(alloc, word, &mut payloads) {
            drop(payloads);
            return Err(fault);
        }
    }
    Ok(payloads)
}

/// One payload more, of this word.
#[tactic(auto, using(crate::proofs::ScriptLines::adds_payload))]
fn add_payload(alloc: Global, word: &[u8], payloads: &mut Vec<Bytes>) -> Result<(), LineFault>
    ensures { OnOk result ((words : List (List ℕ)) → ArePayloadWords words payloads.old.items
        → ArePayloadWords (words ++ (word.now ∷ [])) payloads.new.items) }
{
    let payload = payload(alloc, word)?;
    payloads.push(payload).map_err(AllocError::from)?;
    Ok(())
}

/// `J F`, behind `arrive`.
fn arrive_of(words: &str) -> Result<ScriptStep<'_>, LineFault>
    ensures { IfOk result (λ step. Orders (spaced (codes "arrive") words.now) (order_of step)) }
{
    let (j, f) = numbered(words)?;
    let f = number(f)?;
    Ok(ScriptStep::Take(Step::Arrive(j, f as usize)))
}

/// `I`, behind `tick`.
fn tick_of(words: &str) -> Result<ScriptStep<'_>, LineFault>
    ensures { IfOk result (λ step. Orders (spaced (codes "tick") words.now) (order_of step)) }
{
    let i = number(words)?;
    Ok(ScriptStep::Take(Step::Tick(i)))
}

/// `J I`, behind `help`.
fn help_of(words: &str) -> Result<ScriptStep<'_>, LineFault>
    ensures { IfOk result (λ step. Orders (spaced (codes "help") words.now) (order_of step)) }
{
    let (j, i) = numbered(words)?;
    let i = number(i)?;
    Ok(ScriptStep::Take(Step::Help(j, i)))
}

/// `I ROOM TEXT`, behind `say`. The text may be empty, the room may not.
fn say_of(words: &str) -> Result<ScriptStep<'_>, LineFault>
    ensures { IfOk result (λ step. Orders (spaced (codes "say") words.now) (order_of step)) }
{
    let (member, words) = numbered(words)?;
    let (room, text) = split(words)?;
    if room.is_empty() {
        return Err(LineFault::NoLine);
    }
    Ok(ScriptStep::Compose {
        member,
        line: Line::Say { room, text },
    })
}

/// `I k.t TEXT`, behind `answer`. The text may be empty.
fn answer_of(words: &str) -> Result<ScriptStep<'_>, LineFault>
    ensures { IfOk result (λ step. Orders (spaced (codes "answer") words.now) (order_of step)) }
{
    let (member, words) = numbered(words)?;
    let (question, text) = split(words)?;
    let question = name(question)?;
    Ok(ScriptStep::Compose {
        member,
        line: Line::Answer { question, text },
    })
}

/// `I`, behind `screen`.
fn screen_of(words: &str) -> Result<ScriptStep<'_>, LineFault>
    ensures { IfOk result (λ step. Orders (spaced (codes "screen") words.now) (order_of step)) }
{
    let member = number(words)?;
    Ok(ScriptStep::Screen { member })
}

/// The first word, and what stands behind the space after it.
fn split(text: &str) -> Result<(&str, &str), LineFault>
    ensures { IfOk result (λ parts. text.now ≡ spaced parts.0.now parts.1.now) }
{
    halves(text, " ")
}

/// The name of a message, `k.t`. Whether there is such a message is not asked here.
fn name(word: &str) -> Result<Name, LineFault>
    ensures { IfOk result (λ name. word.now
        ≡ decimal name.sender ++ (codes "." ++ decimal name.number)) }
{
    let (sender, place) = halves(word, ".")?;
    let sender = number(sender)?;
    let place = number(place)?;
    Ok(Name {
        sender,
        number: place,
    })
}
