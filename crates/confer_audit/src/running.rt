//! From a reader to a writer, by way of an audit.

ghost use Rattle.std.specs.Prelude.{◌≡◌, IfOk, IfErr, map, true, false};
ghost use Rattle.cb_trace.specs.Text.{history_fields};
ghost use Rattle.cb_trace.specs.Auditing.{IsJoint};
ghost use Rattle.confer_audit.specs.Audit.{Answers, IsNoTrace, Prints, PrintsOf, StopsAuditing, refusal_text, script_text};

use crate::fault::TraceInputFault;
use crate::text::script_of;
use cb_member::{History, NoMemory};
use cb_trace::{AuditFault, Joint, TraceFault, audit, read_trace};
use confer_text::{LinesFault, put_fault, read_whole, write_whole};
use std::alloc::{AllocError, Global};
use std::io::{Read, Write};

/// What is printed of a trace, and whether its audit said no.
#[derive(Drop)]
struct Verdict {
    refused: bool,
    text: Vec<u8>,
}

/// Reads a trace to the end of the input, has its histories audited, and writes the script of their joint
/// order or why there is none. Whether the audit said no.
///
/// The whole answer is made before any of it is written: where the trace can't be read whole, has a bad line,
/// or memory runs out, nothing is written.
pub fn audit_trace<R: Read, W: Write>(
    alloc: Global,
    input: &mut R,
    output: &mut W,
) -> Result<bool, TraceInputFault>
    ensures answers { IfOk result (λ refused. Answers refused (R.remaining input.old)
        (W.contents output.old) (W.contents output.new)) }
    ensures fault { IfErr result (λ fault. StopsAuditing fault (R.remaining input.old)
        (W.contents output.old) (W.contents output.new)) }
{
    let text = match read_whole(alloc, input) {
        Ok(text) => text,
        Err(fault) => return Err(TraceInputFault::Lines(fault)),
    };
    let verdict = match verdict_of(alloc, &text) {
        Ok(verdict) => verdict,
        Err(fault) => return Err(fault),
    };
    match write_whole(output, &verdict.text) {
        Ok(()) => Ok(verdict.refused),
        Err(fault) => Err(TraceInputFault::Lines(fault)),
    }
}

/// What is printed of a trace.
fn verdict_of(alloc: Global, text: &[u8]) -> Result<Verdict, TraceInputFault>
    ensures ok { IfOk result (λ verdict. PrintsOf text.now verdict.refused verdict.text.items) }
    ensures fault { IfErr result (IsNoTrace text.now) }
{
    match read_trace(alloc, text) {
        Ok(histories) => match judged(alloc, &histories) {
            Ok(verdict) => Ok(verdict),
            Err(AllocError) => Err(TraceInputFault::Lines(LinesFault::NoMemory)),
        },
        Err(TraceFault::BadLine { line }) => Err(TraceInputFault::BadTrace { line }),
        Err(TraceFault::NoMemory) => Err(TraceInputFault::Lines(LinesFault::NoMemory)),
    }
}

/// What is printed of these histories.
fn judged(alloc: Global, histories: &[History]) -> Result<Verdict, NoMemory>
    ensures { IfOk result (λ verdict. Prints (map history_fields histories.now) verdict.refused
        verdict.text.items) }
{
    match audit(alloc, histories) {
        Ok(joint) => accepted(alloc, histories, &joint),
        Err(AuditFault::NoMemory) => Err(AllocError),
        Err(refusal) => refused(alloc, refusal),
    }
}

/// The script of their joint order.
fn accepted(alloc: Global, histories: &[History], joint: &Joint) -> Result<Verdict, NoMemory>
    requires { IsJoint (map history_fields histories.now) joint.now.setting joint.now.steps }
    ensures accepted { IfOk result (λ verdict. verdict.refused ≡ false) }
    ensures text { IfOk result (λ verdict. verdict.text.items ≡ script_text joint.now) }
{
    let Some(first) = histories.first() else {
        unreachable!("there is a history for each member");
    };
    Ok(Verdict {
        refused: false,
        text: script_of(alloc, first.group, joint)?,
    })
}

#[tactic(auto, unfolding(crate::specs::Audit::refusal_text))]
fn refused(alloc: Global, refusal: AuditFault) -> Result<Verdict, NoMemory>
    ensures refused { IfOk result (λ verdict. verdict.refused ≡ true) }
    ensures text { IfOk result (λ verdict. verdict.text.items ≡ refusal_text refusal) }
{
    let mut text = Vec::new(alloc);
    put_fault(&mut text, "no ", refusal)?;
    Ok(Verdict {
        refused: true,
        text,
    })
}
