ghost use Rattle.hx_region.specs.Plans.{AreAsked, FewestAreAsked, LostWhereEachLost, LowestLostIsNamed, MatchesAreAsked};
ghost use Rattle.hx_region.specs.Spans.{AreCovered, AreDisjoint, AreWithin, MatchesAreMet, PlacesBelong};
ghost use Rattle.hx_types.specs.Spaces.{IsSpace};

use hx_types::{Config, Space, Terms};

/// A law on the definitions: the subspaces of a space share out its regions.
///
/// Every region belongs to one subspace and to no other, and in each subspace every key and
/// object has its one place among the subspace's own regions. An object that meets the terms of
/// a search lies, in each subspace, in a region that meets them, so a search of those misses none.
pub fn regions_are_shared_out(_space: &Space)
    requires { IsSpace _space.now }
    ensures covered { AreCovered _space.now }
    ensures disjoint { AreDisjoint _space.now }
    ensures within { AreWithin _space.now }
    ensures places { PlacesBelong _space.now }
    ensures met { MatchesAreMet _space.now }
{}

/// A law on the definitions: the plan of a search misses no match.
///
/// A plan names a subspace and regions of it that meet the terms, none of them lost. Every key
/// and object that meet the terms have their place in that subspace in one of those regions. No
/// other subspace without a lost region for the query has fewer, and none declared later has as
/// few. There is no plan exactly where every subspace has a lost region for the query; the region
/// that is then named is the lowest such of the key subspace.
pub fn plans_miss_nothing(_space: &Space, _config: &Config, _terms: &Terms)
    requires { IsSpace _space.now }
    ensures asked { AreAsked _space.now _config.now _terms.now }
    ensures matches { MatchesAreAsked _space.now _config.now _terms.now }
    ensures fewest { FewestAreAsked _space.now _config.now _terms.now }
    ensures lost { LostWhereEachLost _space.now _config.now _terms.now }
    ensures lowest { LowestLostIsNamed _space.now _config.now _terms.now }
{}
