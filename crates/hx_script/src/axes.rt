//! How a subspace cuts the values of some attributes.

ghost use Rattle.std.specs.Prelude.{◌≡◌, ◌≤◌, ◌+◌, ◌*◌, IfOk, OnOk, length};
ghost use Rattle.hx_types.specs.declared.limits.TheConstants.{MOST_ATTRIBUTES, MOST_REGIONS};
ghost use Rattle.hx_script.specs.Readers.{Reads};
ghost use Rattle.hx_script.specs.Axes.{has_axis, free_axis, parts, axis, next_axis, more_axes, subspace};

use crate::errors::{Reason, Stop};
use crate::line::{Line, Until};
use crate::words::{declared_number, named};
use hx_types::{Axes, Axis, MOST_AXES, MOST_PARTS, MOST_REGIONS, Space};
use std::alloc::Global;

/// The axes of a subspace as far as they were read, and how many regions they make.
#[derive(Drop)]
pub struct AxesDraft {
    pub axes: Axes,
    pub size: u32,
}

fn has_axis(axes: &Axes, attribute: u32) -> bool
    ensures { result ≡ has_axis axes.now attribute }
{
    axes.as_slice()
        .iter()
        .any(|axis| axis.attribute == attribute)
}

/// A declared attribute that isn't an axis yet, by its name.
#[tactic(auto, unfolding(crate::specs::Axes::free_axis))]
fn free_axis(space: &Space, axes: &Axes, line: &mut Line<'_>) -> Result<u32, Stop>
    requires few { length space.now.attributes ≤ MOST_ATTRIBUTES }
    ensures { Reads (λ a. a) result line.new (free_axis space.now axes.now line.old) }
{
    let word = named(line)?;
    let attribute = declared_number(space, word)?;
    if has_axis(axes, attribute) {
        return Err(Stop::Fault(Reason::Twice));
    }
    if axes.len() >= MOST_AXES {
        return Err(Stop::Fault(Reason::Limit));
    }
    Ok(attribute)
}

/// Into how many parts, where the other axes make `size` regions and `regions` stand before.
#[tactic(auto, unfolding(crate::specs::Axes::parts))]
fn parts(regions: u32, size: u32, line: &mut Line<'_>) -> Result<u32, Stop>
    ensures reads { Reads (λ n. n) result line.new (parts regions size line.old) }
    ensures within { IfOk result (λ n. regions + size * n ≤ MOST_REGIONS) }
{
    let parts = line.number_in(1, MOST_PARTS)?;
    let all = u64::from(regions) + u64::from(size) * u64::from(parts);
    if all > u64::from(MOST_REGIONS) {
        return Err(Stop::Fault(Reason::Limit));
    }
    Ok(parts)
}

/// One more axis.
#[tactic(auto, unfolding(crate::specs::Axes::axis))]
fn axis(space: &Space, regions: u32, draft: &mut AxesDraft, line: &mut Line<'_>) -> Result<(), Stop>
    requires few { length space.now.attributes ≤ MOST_ATTRIBUTES }
    ensures reads { Reads (λ _. draft.new) result line.new (axis space.now regions draft.old line.old) }
    ensures within { OnOk result (regions + draft.new.size ≤ MOST_REGIONS) }
{
    let attribute = free_axis(space, &draft.axes, line)?;
    let parts = parts(regions, draft.size, line)?;
    draft.axes.push(Axis { attribute, parts })?;
    draft.size *= parts;
    Ok(())
}

/// One more axis behind a comma.
#[tactic(auto, unfolding(crate::specs::Axes::next_axis))]
fn next_axis(
    space: &Space,
    regions: u32,
    draft: &mut AxesDraft,
    line: &mut Line<'_>,
) -> Result<(), Stop>
    requires few { length space.now.attributes ≤ MOST_ATTRIBUTES }
    ensures reads { Reads (λ _. draft.new) result line.new (next_axis space.now regions draft.old line.old) }
    ensures within { OnOk result (regions + draft.new.size ≤ MOST_REGIONS) }
{
    line.sign(b",")?;
    axis(space, regions, draft, line)
}

/// More axes behind those that are there, up to the end of the line.
#[tactic(auto, using(crate::proofs::MoreAxes::axes_go_on, crate::proofs::MoreAxes::axis_shrinks, crate::proofs::MoreAxes::axes_end))]
fn more_axes(
    space: &Space,
    regions: u32,
    draft: &mut AxesDraft,
    line: &mut Line<'_>,
) -> Result<(), Stop>
    requires few { length space.now.attributes ≤ MOST_ATTRIBUTES }
    requires room { regions + draft.old.size ≤ MOST_REGIONS }
    ensures reads { Reads (λ _. draft.new) result line.new (more_axes space.now regions draft.old line.old) }
    ensures within { OnOk result (regions + draft.new.size ≤ MOST_REGIONS) }
{
    'axes: while !line.is_at(Until::End) {
        next_axis(space, regions, draft, line)?;
    }
    Ok(())
}

/// All axes of a subspace, in a space that has so many regions before it.
#[tactic(auto, unfolding(crate::specs::Axes::subspace))]
pub(crate) fn subspace(
    alloc: Global,
    space: &Space,
    regions: u32,
    line: &mut Line<'_>,
) -> Result<AxesDraft, Stop>
    requires few { length space.now.attributes ≤ MOST_ATTRIBUTES }
    ensures reads { Reads (λ c. c) result line.new (subspace space.now regions line.old) }
    ensures within { IfOk result (λ c. regions + c.size ≤ MOST_REGIONS) }
{
    let mut draft = AxesDraft {
        axes: Axes::new(alloc),
        size: 1,
    };
    axis(space, regions, &mut draft, line)?;
    more_axes(space, regions, &mut draft, line)?;
    Ok(draft)
}
