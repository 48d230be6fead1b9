//! What follows for regions in order and their links: each law is the contract of a function that does nothing.

ghost use Rattle.region_deps.specs.Laws.{OnePlaceReaches, EachClashIsReached, LinksSuffice};

/// Over one cell an earlier region that clashes with a later one reaches the later one's task by a chain of links whose regions
/// all cover the cell.
pub fn one_place_reaches()
    ensures { OnePlaceReaches }
{}

/// So of any two regions that clash: the earlier reaches the later one's task over a cell that both cover.
pub fn each_clash_is_reached()
    ensures { EachClashIsReached }
{}

/// And so, where a region is gone only once each one linked to its task is, a task is let in only where each earlier region that
/// clashes with one of its own is gone.
pub fn links_suffice()
    ensures { LinksSuffice }
{}
