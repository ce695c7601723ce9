// The plan of a file.
ghost use Rattle.std.specs.Prelude.{◌≡◌, ◌≤◌, ◌^◌, IfOk};
ghost use Rattle.yenc_body.specs.Parts.{parts_of as parts_of_file};
ghost use Rattle.poster.specs.Plan.{PlanEnds, planned_part, planned_parts};
ghost use Rattle.poster.specs.Settings.{AreSettings};
ghost use Rattle.limits.specs.declared.TheConstants.{MOST_FILE_BYTES, MOST_SEGMENTS};

use crate::{Plan, PlanError, PlanPart, Settings};
use article_head::part_id;
use limits::MOST_SEGMENTS;
use lists::{List, Memory};
use std::alloc::Global;
use yenc_body::parts_of;

/// Cuts a file of so many bytes, at most 2^40, into parts. The last one may be shorter, and a file without bytes has one
/// part, without bytes.
pub fn plan(alloc: Global, settings: &Settings, size: u64) -> Result<Plan, PlanError>
    requires settings { AreSettings settings.now }
    requires size { size ≤ MOST_FILE_BYTES }
    ensures { PlanEnds settings.now size result }
{
    let total = parts_of(size, settings.part_size);
    if total > u64::from(MOST_SEGMENTS) {
        return Err(PlanError::TooManyParts(total));
    }
    match cut(alloc, settings, size, total as u32) {
        Ok(parts) => Ok(Plan { size, parts }),
        Err(Memory) => Err(PlanError::Memory),
    }
}

fn cut(alloc: Global, settings: &Settings, size: u64, total: u32) -> Result<List<PlanPart>, Memory>
    requires settings { AreSettings settings.now }
    requires total { total ≡ parts_of_file size settings.now.part_size }
    requires most { total ≤ MOST_SEGMENTS }
    ensures { IfOk result (λ parts. parts ≡ planned_parts settings.now size) }
{
    let mut parts = List::new(alloc);
    parts.reserve(total as usize)?;
    for before in 0..total {
        parts.push(plan_part(settings, size, before + 1, total))?;
    }
    Ok(parts)
}

fn plan_part(settings: &Settings, size: u64, part: u32, total: u32) -> PlanPart
    requires settings { AreSettings settings.now }
    requires first { 1 ≤ part }
    requires last { part ≤ total }
    requires total { total ≡ parts_of_file size settings.now.part_size }
    requires most { total ≤ MOST_SEGMENTS }
    ensures { result ≡ planned_part settings.now size part }
{
    let place = u64::from(part - 1) * settings.part_size;
    PlanPart {
        first: place + 1,
        len: settings.part_size.min(size.saturating_sub(place)),
        id: part_id(
            settings.token.as_slice(),
            settings.domain.as_slice(),
            part,
            total,
        ),
    }
}
