//! Regions as runs of segments: the last writer of each segment and the readers since make the links.

ghost use Rattle.std.specs.Prelude.{◌≡◌, ℕ, ◌<◌, ◌≤◌, ◌++◌, All, IfOk, OnOk, length, map, replicate, Option};
ghost use Rattle.std.specs.Option.{option_to_list};
ghost use Rattle.region_deps.specs.Links.{link, IsWithin};
ghost use Rattle.region_deps.specs.Clashes.{IsSound};
ghost use Rattle.region_deps.specs.Chains.{IsLinkedAt};
ghost use Rattle.region_deps.specs.Segments.{sources, touched, untouched, IsTouched};

use crate::graph::Link;
use std::alloc::{AllocError, Global};
use std::marker::Model;

/// A region of a task: the places on a line, `from` up to but not including `to`, and whether the task may write them.
#[derive(Clone, Copy, Debug, PartialEq, Eq)]
pub struct Region {
    pub task: u32,
    pub from: u64,
    pub to: u64,
    pub writes: bool,
}

/// The region that wrote a segment last, and those that read it since.
#[derive(Drop)]
struct Segment {
    writer: Option<u32>,
    readers: Vec<u32>,
}

impl Model for Segment {
    ghost use Rattle.region_deps.specs.Segments.{Since};

    ghost Value = { Since };

    ghost view = { λ s. record { writer = s.writer; readers = s.readers.items } };
}

impl Segment {
    // Links the region's task to those whom it has to wait for here, and notes the region.
    fn touch(
        &mut self,
        region: u32,
        writes: bool,
        task: u32,
        links: &mut Vec<Link>,
    ) -> Result<(), AllocError>
        ensures segment { OnOk result (self.new ≡ touched self.old region writes) }
        ensures links { OnOk result (links.new.items ≡ links.old.items ++ map (λ source. link source task) (sources self.old writes)) }
    {
        wait_for_writer(self.writer, task, links)?;
        if writes {
            wait_for_readers(&self.readers, task, links)?;
            self.writer = Some(region);
            self.readers.clear();
            Ok(())
        } else {
            self.readers.push(region)?;
            Ok(())
        }
    }
}

// Links the task to the writer, if there is one.
fn wait_for_writer(writer: Option<u32>, task: u32, links: &mut Vec<Link>) -> Result<(), AllocError>
    ensures { OnOk result (links.new.items ≡ links.old.items ++ map (λ source. link source task) (option_to_list writer)) }
{
    match writer {
        Some(source) => {
            links.push(Link { source, task })?;
            Ok(())
        }
        None => Ok(()),
    }
}

// Links the task to each of the readers.
fn wait_for_readers(readers: &[u32], task: u32, links: &mut Vec<Link>) -> Result<(), AllocError>
    ensures { OnOk result (links.new.items ≡ links.old.items ++ map (λ source. link source task) readers.now) }
{
    for source in readers {
        links.push(Link {
            source: *source,
            task,
        })?;
    }
    Ok(())
}

// The region with this number touches each of its segments.
fn touch_all(
    segments: &mut Vec<Segment>,
    number: u32,
    region: &Region,
    links: &mut Vec<Link>,
) -> Result<(), AllocError>
    requires { region.now.to ≤ length segments.old.items }
    ensures { OnOk result (IsTouched segments.old.items segments.new.items region.now.from region.now.to
        number region.now.task region.now.writes links.old.items links.new.items) }
{
    for at in region.from..region.to {
        segments[at as usize].touch(number, region.writes, region.task, links)?;
    }
    Ok(())
}

// So many segments that no region has touched.
fn fresh(alloc: Global, segments: usize) -> Result<Vec<Segment>, AllocError>
    ensures { IfOk result (λ fresh. fresh.items ≡ replicate segments untouched) }
{
    let mut fresh = Vec::with_capacity(alloc, segments)?;
    for _segment in 0..segments {
        fresh.push(Segment {
            writer: None,
            readers: Vec::new(alloc),
        })?;
    }
    Ok(fresh)
}

/// The links that an order of these regions asks for. Takes time in the segments that the regions cover.
pub fn linked(alloc: Global, regions: &[Region], segments: usize) -> Result<Vec<Link>, AllocError>
    requires laid { All (λ region. region.to ≤ segments) regions.now }
    requires numbered { length regions.now < 4294967296 }
    ensures linked { IfOk result (λ links. (at : ℕ) → IsLinkedAt regions.now links.items at) }
    ensures sound { IfOk result (λ links. IsSound regions.now links.items) }
{
    let mut segments = fresh(alloc, segments)?;
    let mut links = Vec::new(alloc);
    for number in 0..regions.len() {
        touch_all(&mut segments, number as u32, &regions[number], &mut links)?;
    }
    Ok(links)
}
