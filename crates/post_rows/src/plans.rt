// Plans, and the indexes of what was posted.
ghost use Rattle.std.specs.Prelude.{IfOk};
ghost use Rattle.poster.specs.Index.{AreOutcomes};
ghost use Rattle.poster.specs.Plan.{IsPlanOf};
ghost use Rattle.poster.specs.Settings.{AreSettings};

use crate::fixtures::{Planned, planned_of, settings_of};
use lists::{Bytes, List, Memory};
use nzb_writer::write_nzb;
use poster::{PartEnd, Plan, PlanError, PlanPart, Sent, plan, post_index};
use std::alloc::Global;
use std::process::Abort;

// Whether the parts begin at these bytes, counted from 1, and have so many.
fn are_parts(parts: &[PlanPart], wanted: &[(u64, u64)]) -> bool {
    if parts.len() != wanted.len() {
        return false;
    }
    for i in 0..parts.len() {
        if parts[i].first != wanted[i].0 || parts[i].len != wanted[i].1 {
            return false;
        }
    }
    true
}

// Asserts that a file of so many bytes is cut into these parts.
fn has_parts<R: Abort>(rt: &R, planned: Planned, size: u64, wanted: &[(u64, u64)]) -> Planned {
    assert!(rt; planned.plan.size == size);
    assert!(rt; are_parts(planned.plan.parts.as_slice(), wanted));
    planned
}

// Asserts the message-id of the last part.
fn ends_with_id<R: Abort>(rt: &R, planned: Planned, wanted: &[u8]) {
    match planned.plan.parts.as_slice().last() {
        Some(part) => assert!(rt; part.id.as_slice() == wanted),
        None => rt.panic("a part"),
    }
}

#[test]
fn a_file_is_cut_into_parts(rt: HostRuntime) {
    let planned = planned_of(&rt, b"misc.test", 9, 20);
    let planned = has_parts(&rt, planned, 20, &[(1, 9), (10, 9), (19, 2)]);
    ends_with_id(&rt, planned, b"tok.3of3@example.org");
}

#[test]
fn a_file_without_bytes_has_one_part(rt: HostRuntime) {
    let planned = planned_of(&rt, b"misc.test", 9, 0);
    let _planned = has_parts(&rt, planned, 0, &[(1, 0)]);
}

#[test]
fn a_file_has_at_most_262144_parts(rt: HostRuntime) {
    let settings = settings_of(&rt, b"misc.test", 2);
    match plan(rt.alloc(), &settings, 524_289) {
        Err(PlanError::TooManyParts(parts)) => assert!(rt; parts == 262_145),
        _ => rt.panic("too many parts"),
    }
}

// One outcome for each part, the first of 188 octets, the next of one more, and so on.
fn outcomes(alloc: Global, plan: &Plan) -> Result<List<Sent>, Memory>
    ensures { IfOk result (AreOutcomes plan.now) }
{
    let mut sent = List::new(alloc);
    for i in 0..plan.parts.len() {
        sent.push(Sent {
            end: PartEnd::Posted,
            bytes: (i as u64).min(1000) + 188,
        })?;
    }
    Ok(sent)
}

// Asserts that the index of what was posted ends so.
fn index_ends<R: Abort + AllocGlobal>(rt: &R, planned: Planned, wanted: &[u8])
    requires settings { AreSettings planned.settings }
    requires plan { IsPlanOf planned.settings planned.plan.size planned.plan }
{
    let alloc = rt.alloc();
    let Planned { settings, plan } = planned;
    let sent = outcomes(alloc, &plan).expect(rt, "outcomes");
    let index = post_index(alloc, &settings, &plan, &sent, 1_000_000_000).expect(rt, "an index");
    let mut text = Bytes::new(alloc);
    write_nzb(&index, &mut text).expect(rt, "a text");
    assert!(rt; text.as_slice().ends_with(wanted));
}

#[test]
fn an_index_lists_each_part(rt: HostRuntime) {
    let planned = planned_of(&rt, b"alt.binaries.test,misc.test", 9, 27);
    let wanted = b"<nzb xmlns=\"http://www.newzbin.com/DTD/2003/nzb\">\n\
        <file poster=\"me@example.org\" date=\"1000000000\" subject=\"&quot;d&quot; yEnc (1/3)\">\n\
        <groups>\n<group>alt.binaries.test</group>\n<group>misc.test</group>\n</groups>\n<segments>\n\
        <segment bytes=\"188\" number=\"1\">tok.1of3@example.org</segment>\n\
        <segment bytes=\"189\" number=\"2\">tok.2of3@example.org</segment>\n\
        <segment bytes=\"190\" number=\"3\">tok.3of3@example.org</segment>\n</segments>\n</file>\n</nzb>\n";
    index_ends(&rt, planned, wanted);
}
