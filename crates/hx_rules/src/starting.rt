ghost use Rattle.std.specs.Prelude.{◌≡◌, ◌≤◌, ◌+◌, IfOk, map};
ghost use Rattle.std.specs.List.{All};
ghost use Rattle.hx_types.specs.Configs.{first_config, first_member};
ghost use Rattle.hx_types.specs.Spaces.{ArePart, IsSpace};
ghost use Rattle.hx_types.specs.Subspaces.{region_count, size_of};
ghost use Rattle.hx_types.specs.Words.{below};
ghost use Rattle.hx_types.specs.declared.limits.TheConstants.{MOST_REGIONS, MOST_SERVERS};
ghost use Rattle.hx_types.specs.declared.spaces.Axis.{Axis};

use hx_types::{
    Axis, Config, Epoch, Member, Members, Memory, RegionLists, ServerId, ServerList, Shared, Space,
};
use std::alloc::Global;

/// The configuration of epoch 1, which every actor knows at the start.
///
/// It has all servers of the space. Each region stands on as many servers as the space tolerates
/// failures and one more, counted round from the region's number, all of them ready. This layout
/// is this project's choice.
///
/// # Errors
///
/// [`Memory`] alone.
pub fn first_config(alloc: Global, space: &Space) -> Result<Config, Memory>
    requires { IsSpace space.now }
    ensures { IfOk result (λ config. config ≡ first_config space.now) }
{
    let servers = all_servers(alloc, space.servers)?;
    let regions = all_regions(alloc, space)?;
    Ok(Config {
        epoch: Epoch(1),
        servers,
        regions,
    })
}

/// The configuration of epoch 1 in a form that many can hold.
///
/// # Errors
///
/// [`Memory`] alone.
pub fn first_shared_config(alloc: Global, space: &Space) -> Result<Shared<Config>, Memory>
    requires { IsSpace space.now }
    ensures { IfOk result (λ config. config ≡ first_config space.now) }
{
    Shared::new(alloc, first_config(alloc, space)?)
}

#[tactic(auto, using(hx_types::proofs::Counting::map_below_next))]
fn all_servers(alloc: Global, count: u32) -> Result<ServerList, Memory>
    requires { count ≤ MOST_SERVERS }
    ensures { IfOk result (λ servers. servers ≡ map (λ n. record { 0 = n + 1 }) (below count)) }
{
    let mut servers = ServerList::with_capacity(alloc, count as usize)?;
    for place in 0..count {
        servers.push(ServerId(place + 1))?;
    }
    Ok(servers)
}

#[tactic(auto, using(hx_types::proofs::Counting::map_below_next))]
fn all_regions(alloc: Global, space: &Space) -> Result<RegionLists, Memory>
    requires { IsSpace space.now }
    ensures { IfOk result (λ regions. regions ≡ map (λ g. map (first_member space.now g) (below (space.now.tolerate + 1))) (below (region_count space.now))) }
{
    let count = count_regions(space);
    let mut regions = RegionLists::with_capacity(alloc, count as usize)?;
    for region in 0..count {
        let members = first_members(alloc, space, region)?;
        regions.push(members)?;
    }
    Ok(regions)
}

#[tactic(auto, using(hx_types::proofs::Counting::map_below_next))]
fn first_members(alloc: Global, space: &Space, region: u32) -> Result<Members, Memory>
    requires space { IsSpace space.now }
    requires region { region ≤ MOST_REGIONS }
    ensures { IfOk result (λ members. members ≡ map (first_member space.now region) (below (space.now.tolerate + 1))) }
{
    let count = space.tolerate + 1;
    let mut members = Members::with_capacity(alloc, count as usize)?;
    for place in 0..count {
        let server = ServerId((region + place) % space.servers + 1);
        members.push(Member {
            server,
            ready: true,
        })?;
    }
    Ok(members)
}

/// How many regions the space has, those of the key subspace among them.
pub fn count_regions(space: &Space) -> u32
    requires { IsSpace space.now }
    ensures exact { result ≡ region_count space.now }
    ensures few { result ≤ MOST_REGIONS }
{
    let mut count = space.key_parts;
    for axes in &space.subspaces {
        count += size(axes.as_slice());
    }
    count
}

/// How many regions a subspace of these axes has.
#[tactic(auto, using(hx_types::proofs::Counting::parts_of_rest, hx_types::proofs::Counting::small_rest))]
pub fn size(axes: &[Axis]) -> u32
    requires parts { All (λ (a : Axis). ArePart a.parts) axes.now }
    requires few { size_of axes.now ≤ MOST_REGIONS }
    ensures { result ≡ size_of axes.now }
{
    match axes.split_first() {
        None => 1,
        Some((first, rest)) => first.parts * size(rest),
    }
}
