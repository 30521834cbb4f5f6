ghost use Rattle.std.specs.Prelude.{◌≡◌, ◌<◌, [], ◌∷◌, length, IfOk};
ghost use Rattle.hx_model.specs.Planning.{query_regions};
ghost use Rattle.hx_model.specs.Regions.{key_region, meets, place_of};
ghost use Rattle.hx_region.specs.Spans.{IsRegionIn, subspace_count};
ghost use Rattle.hx_types.specs.Spaces.{IsSpace};
ghost use Rattle.hx_types.specs.Subspaces.{axes_of, first_region, region_count, size_of};

use crate::meeting::{count_meeting, regions_from, rows_meeting};
use crate::rows::{row, row_meets};
use hx_rules::size;
use hx_types::{Axes, Axis, Exact, Memory, Object, RegionId, RegionList, Space, Terms, Text};
use std::alloc::Global;
use std::marker::Model;

/// A subspace: its first region, how many it has, and its axes.
#[derive(Drop)]
struct SubspaceSpan {
    first: u32,
    size: u32,
    axes: Axes,
}

/// The regions of one space, at most 4,096. Contracts see it as that space.
pub struct RegionMap {
    space: Space,
    spans: Vec<SubspaceSpan>,
    regions: u32,
}

/// The parts are let go here alone: who drops a map has nothing to prove of them.
impl Drop for RegionMap {
    fn drop(self) {
        let RegionMap {
            space: _,
            spans: _,
            regions: _,
        } = self;
    }
}

impl Model for RegionMap {
    ghost use Rattle.hx_types.specs.declared.spaces.Space.{Space};

    ghost Value = { Space };

    ghost use Rattle.hx_region.specs.Tables.{IsTable};

    ghost view = { λ m. m.space };

    ghost invariant = { λ m. IsTable m.space m.spans.items m.regions };
}

impl RegionMap {
    /// The map of a space. It keeps a copy of the space and a table of its subspaces. It fails with
    /// [`Memory`] alone.
    pub fn new(alloc: Global, space: &Space) -> Result<RegionMap, Memory>
        requires { IsSpace space.now }
        ensures { IfOk result (λ map. map ≡ space.now) }
    {
        let mut spans = Vec::new(alloc);
        spans.push(SubspaceSpan {
            first: 0,
            size: space.key_parts,
            axes: key_axes(alloc, space.key_parts)?,
        })?;
        let mut regions = space.key_parts;
        for axes in space.subspaces.as_slice() {
            let size = size(axes.as_slice());
            let axes = axes.copy(alloc)?;
            spans.push(SubspaceSpan {
                first: regions,
                size,
                axes,
            })?;
            regions += size;
        }
        let space = space.copy(alloc)?;
        Ok(RegionMap {
            space,
            spans,
            regions,
        })
    }

    /// How many regions the space has, those of the key subspace among them.
    pub fn regions(&self) -> u32
        ensures { result ≡ region_count self.now }
    {
        self.regions
    }

    /// How many subspaces the space has, the key's (subspace 0) among them.
    pub fn subspaces(&self) -> u32
        ensures { result ≡ subspace_count self.now }
    {
        self.spans.len() as u32
    }

    /// The first region of a subspace, and how many it has.
    pub fn span(&self, s: u32) -> (RegionId, u32)
        requires { s < subspace_count self.now }
        ensures first { result.0.0 ≡ first_region self.now s }
        ensures size { result.1 ≡ size_of (axes_of self.now s) }
    {
        let subspace = self.subspace(s);
        (RegionId(subspace.first), subspace.size)
    }

    /// The region of a key in the key subspace. Its hash is the only work.
    pub fn of_key(&self, key: &Text) -> RegionId
        ensures place { result ≡ key_region self.now key.now }
        ensures within { IsRegionIn self.now 0 result }
    {
        RegionId(crate::text_cell(key.as_bytes(), self.space.key_parts))
    }

    /// The region of a key and object in a subspace, found in one step an axis of the subspace.
    pub fn of_object(&self, s: u32, key: &Text, object: &Object) -> RegionId
        requires { s < subspace_count self.now }
        ensures place { result ≡ place_of self.now s key.now object.now }
        ensures within { IsRegionIn self.now s result }
    {
        let subspace = self.subspace(s);
        let row = row(&self.space, subspace.axes.as_slice(), key, object);
        RegionId(subspace.first + row)
    }

    /// Whether on each axis of the region's subspace the region's cell is the cell of some value
    /// that meets the terms: the cell of an equality's value, or a cell from that of a range's
    /// lower end to that of its higher end. No region past the last one meets any terms.
    ///
    /// One step a subspace finds the region's own; then each axis looks at each term.
    pub fn meets(&self, region: RegionId, terms: &Terms) -> bool
        ensures { result ≡ meets self.now region terms.now }
    {
        for subspace in &self.spans {
            if region.0 < subspace.first + subspace.size {
                let axes = subspace.axes.as_slice();
                let row = region.0 - subspace.first;
                return row_meets(&self.space, axes, row, subspace.size, terms.as_slice());
            }
        }
        false
    }

    /// The regions of a subspace that meet the terms, in ascending order.
    ///
    /// They are made of the cells that the terms allow on each axis, and no other region is looked
    /// at: beside a step for each axis and term it takes at most one for each cell of an axis, and
    /// one for each axis and region that is given.
    ///
    /// # Errors
    ///
    /// [`Memory`] alone.
    pub fn meeting(&self, alloc: Global, s: u32, terms: &Terms) -> Result<RegionList, Memory>
        requires { s < subspace_count self.now }
        ensures { IfOk result (λ regions. regions ≡ (query_regions self.now terms.now s).regions) }
    {
        let subspace = self.subspace(s);
        let rows = rows_meeting(
            alloc,
            &self.space,
            subspace.axes.as_slice(),
            terms.as_slice(),
        )?;
        let regions = regions_from(alloc, subspace.first, &rows)?;
        Ok(regions)
    }

    /// How many regions of a subspace meet the terms, counted in one step for each axis and term.
    pub fn meeting_count(&self, s: u32, terms: &Terms) -> u32
        requires { s < subspace_count self.now }
        ensures { result ≡ length (query_regions self.now terms.now s).regions }
    {
        let subspace = self.subspace(s);
        count_meeting(&self.space, subspace.axes.as_slice(), terms.as_slice())
    }

    fn subspace(&self, s: u32) -> &SubspaceSpan
        requires { s < subspace_count self.now }
        ensures first { result.now.first ≡ first_region self.now s }
        ensures size { result.now.size ≡ size_of (axes_of self.now s) }
        ensures axes { result.now.axes ≡ axes_of self.now s }
    {
        &self.spans[s as usize]
    }
}

/// The one axis of the key subspace.
fn key_axes(alloc: Global, parts: u32) -> Result<Axes, Memory>
    ensures { IfOk result (λ axes. axes ≡ record { attribute = 0; parts = parts } ∷ []) }
{
    let mut axes = Axes::new(alloc);
    axes.push(Axis {
        attribute: 0,
        parts,
    })?;
    Ok(axes)
}
