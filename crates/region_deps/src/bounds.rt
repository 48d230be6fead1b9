//! Where segments begin: at each place where a region does.

ghost use Rattle.std.specs.Prelude.{◌≡◌, ℕ, ◌<◌, ◌≤◌, All, Contains, IfOk, length, map, slice_index};
ghost use Rattle.std.specs.List.Sorted.{IsStrictlyIncreasing};
ghost use Rattle.region_deps.specs.Lines.{IsBounds, laid, position_in};

use crate::segments::Region;
use std::alloc::{AllocError, Global};

// Puts the places in order, each once.
fn each_once(places: &mut Vec<u64>)
    ensures rises { IsStrictlyIncreasing places.new.items }
    ensures keeps { (place : ℕ) → Contains places.old.items place → Contains places.new.items place }
{
    places.sort_unstable();
    places.dedup();
}

// The places where regions begin.
fn beginnings(alloc: Global, regions: &[Region]) -> Result<Vec<u64>, AllocError>
    ensures { IfOk result (λ places. places.items ≡ map (λ (r : Region). r.from) regions.now) }
{
    regions.iter().map(|region| region.from).collect(alloc)
}

/// The places where segments begin, in order.
pub fn bounds(alloc: Global, regions: &[Region]) -> Result<Vec<u64>, AllocError>
    ensures { IfOk result (λ bounds. IsBounds regions.now bounds.items) }
{
    let mut bounds = beginnings(alloc, regions)?;
    each_once(&mut bounds);
    Ok(bounds)
}

// How many segments begin below the place.
fn position(bounds: &[u64], place: u64) -> u64
    requires { (i j : ℕ) → i ≤ j → j < length bounds.now → slice_index bounds.now i ≤ slice_index bounds.now j }
    ensures position { result ≡ position_in bounds.now place }
    ensures within { result ≤ length bounds.now }
{
    bounds.partition_point(|bound| *bound < place) as u64
}

// The region by its segments.
fn laid(bounds: &[u64], region: &Region) -> Region
    requires { (i j : ℕ) → i ≤ j → j < length bounds.now → slice_index bounds.now i ≤ slice_index bounds.now j }
    ensures laid { result ≡ laid bounds.now region.now }
    ensures within { result.to ≤ length bounds.now }
{
    Region {
        task: region.task,
        from: position(bounds, region.from),
        to: position(bounds, region.to),
        writes: region.writes,
    }
}

/// All regions by their segments.
pub fn all_laid(
    alloc: Global,
    bounds: &[u64],
    regions: &[Region],
) -> Result<Vec<Region>, AllocError>
    requires { IsBounds regions.now bounds.now }
    ensures laid { IfOk result (λ all. all.items ≡ map (laid bounds.now) regions.now) }
    ensures within { IfOk result (λ all. All (λ (r : Region). r.to ≤ length bounds.now) all.items) }
{
    let mut all = Vec::with_capacity(alloc, regions.len())?;
    for region in regions {
        all.push(laid(bounds, region))?;
    }
    Ok(all)
}
