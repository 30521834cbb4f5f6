ghost use Rattle.std.specs.Prelude.{◌≡◌, ◌≤◌, ◌++◌, ◌∷◌, [], false, map, slice_set, IfOk};
ghost use Rattle.hx_types.specs.declared.limits.TheConstants.{GREATEST_NUMBER};
ghost use Rattle.hx_model.specs.CoordinatorSteps.{config_ready, config_with, config_without, members_without, next_config, ready_if};

use crate::servers::without;
use hx_types::{
    Config, Epoch, Exact, Member, Members, Memory, RegionId, RegionLists, ServerId, ServerList,
};
use std::alloc::Global;

/// The next configuration where a server is out: it leaves the servers and each region's list,
/// which closes up, as chain replication's does.
pub fn config_without(alloc: Global, config: &Config, server: ServerId) -> Result<Config, Memory>
    requires { config.now.epoch.0 ≤ GREATEST_NUMBER }
    ensures { IfOk result (λ next. next ≡ config_without config.now server) }
{
    let servers = without(alloc, config.servers.as_slice(), server)?;
    let regions = lists_without(alloc, config.regions.as_slice(), server)?;
    Ok(next_config(config, servers, regions))
}

/// The next configuration where a server joins a region, at the end of its list.
pub fn config_with(
    alloc: Global,
    config: &Config,
    server: ServerId,
    region: RegionId,
) -> Result<Config, Memory>
    requires { config.now.epoch.0 ≤ GREATEST_NUMBER }
    ensures { IfOk result (λ next. next ≡ config_with config.now server region) }
{
    let members = with_joiner(alloc, config.members(region), server)?;
    with_members(alloc, config, region, members)
}

/// The next configuration where a server is ready in a region.
pub fn config_ready(
    alloc: Global,
    config: &Config,
    server: ServerId,
    region: RegionId,
) -> Result<Config, Memory>
    requires { config.now.epoch.0 ≤ GREATEST_NUMBER }
    ensures { IfOk result (λ next. next ≡ config_ready config.now server region) }
{
    let members = with_ready(alloc, config.members(region), server)?;
    with_members(alloc, config, region, members)
}

/// The configuration of the next epoch with these servers and lists. It takes no memory.
fn next_config(config: &Config, servers: ServerList, regions: RegionLists) -> Config
    requires { config.now.epoch.0 ≤ GREATEST_NUMBER }
    ensures { result ≡ next_config config.now servers regions }
{
    Config {
        epoch: Epoch(config.epoch.0 + 1),
        servers,
        regions,
    }
}

/// The next configuration where a region has these members.
fn with_members(
    alloc: Global,
    config: &Config,
    region: RegionId,
    members: Members,
) -> Result<Config, Memory>
    requires { config.now.epoch.0 ≤ GREATEST_NUMBER }
    ensures { IfOk result (λ next. next ≡ next_config config.now config.now.servers (slice_set config.now.regions region.0 members)) }
{
    let servers = config.servers.copy(alloc)?;
    let mut regions = config.regions.copy(alloc)?;
    put_members(&mut regions, region, members);
    Ok(next_config(config, servers, regions))
}

/// A region has these members. A region that doesn't exist has none.
fn put_members(regions: &mut RegionLists, region: RegionId, members: Members)
    ensures { regions.new ≡ slice_set regions.old region.0 members }
{
    let place = region.0 as usize;
    if place < regions.len() {
        regions.set(place, members);
    }
}

fn lists_without(
    alloc: Global,
    regions: &[Members],
    server: ServerId,
) -> Result<RegionLists, Memory>
    ensures { IfOk result (λ lists. lists ≡ map (members_without server) regions.now) }
{
    let mut lists = RegionLists::new(alloc);
    for members in regions {
        let left = members_without(alloc, members.as_slice(), server)?;
        lists.push(left)?;
    }
    Ok(lists)
}

fn members_without(alloc: Global, members: &[Member], server: ServerId) -> Result<Members, Memory>
    ensures { IfOk result (λ left. left ≡ members_without server members.now) }
{
    let mut left = Members::new(alloc);
    for member in members {
        if member.server != server {
            left.push(*member)?;
        }
    }
    Ok(left)
}

/// The members and a joiner after them.
fn with_joiner(alloc: Global, members: &[Member], server: ServerId) -> Result<Members, Memory>
    ensures { IfOk result (λ after. after ≡ members.now ++ record { server = server; ready = false } ∷ []) }
{
    let mut after = Members::new(alloc);
    for member in members {
        after.push(*member)?;
    }
    after.push(Member {
        server,
        ready: false,
    })?;
    Ok(after)
}

/// The members, of whom the server is ready.
fn with_ready(alloc: Global, members: &[Member], server: ServerId) -> Result<Members, Memory>
    ensures { IfOk result (λ after. after ≡ map (ready_if server) members.now) }
{
    let mut after = Members::new(alloc);
    for member in members {
        after.push(Member {
            server: member.server,
            ready: member.ready || member.server == server,
        })?;
    }
    Ok(after)
}
