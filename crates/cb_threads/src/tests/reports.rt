//! What the reports of members are to say. Each function asserts a little, of which the prover
//! makes less than of all at once.

use crate::MemberReport;
use std::process::Abort;

/// Of three members who cast twice each: its own messages, and those of the two others.
pub fn has_delivered<I, O, P, T>(rt: &impl Abort, report: &MemberReport<I, O, P, T>) {
    assert_eq!(rt; (report.casts, report.deliveries), (2, 4));
}

/// Each frame that the workers handed to the sender was offered to the outlet.
pub fn has_offered_all<I, O, P, T>(rt: &impl Abort, report: &MemberReport<I, O, P, T>) {
    assert!(rt; report.posted > 0);
    assert_eq!(rt; report.posted, report.offered);
}

pub fn has_run_well<I, O, P, T>(rt: &impl Abort, report: &MemberReport<I, O, P, T>) {
    assert_eq!(rt; report.pace_failures, 0);
    assert!(rt; report.fault.is_none());
}

/// The link, the pace and the talker are in it.
pub fn hands_all_back<I, O, P, T>(rt: &impl Abort, report: &MemberReport<I, O, P, T>) {
    assert!(rt; report.inlet.is_some() && report.outlet.is_some());
    assert!(rt; report.pace.is_some() && report.talker.is_some());
}

/// So often the link has failed.
pub fn has_failed<I, O, P, T>(
    rt: &impl Abort,
    report: &MemberReport<I, O, P, T>,
    expected: (u64, u64),
) {
    assert_eq!(rt; (report.receive_failures, report.send_failures), expected);
}
