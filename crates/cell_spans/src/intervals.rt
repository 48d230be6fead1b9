//! A set of places of the line, kept as intervals that don't touch.

ghost use Rattle.std.specs.Prelude.{◌≡◌, ℕ, ◌<◌, ◌≤◌, ◌↔◌, IsTrue, List, [], Option, Some, None, IfNone, IfSome, OnOk, OnErr, Bool, ◌||◌};
ghost use Rattle.std.specs.Option.{unwrap_or};
ghost use Rattle.cell_spans.specs.Line.{IsIn, is_in};
ghost use Rattle.cell_spans.specs.Intervals.{end_at, Has, AreThose, AreApart, IsLast, IsJoinedBegin};

use crate::line::Interval;
use std::alloc::{AllocError, Global};
use std::collections::BTreeMap;
use std::marker::Model;

/// A set of places, as the map from where each of its intervals begins to where it ends.
#[derive(Drop)]
pub(crate) struct Intervals {
    ends: BTreeMap<u64, u64>,
}

impl Model for Intervals {
    ghost use Rattle.std.specs.Prelude.{ℕ, List};
    ghost use Rattle.cell_spans.specs.Intervals.{AreApart, end_at};

    ghost Value = { List (ℕ × ℕ) };

    ghost view = { λ s. s.ends.entries };

    ghost invariant = { λ s. AreApart (end_at s.ends.entries) };
}

impl Intervals {
    /// The empty set. Takes no memory.
    pub(crate) fn empty(alloc: Global) -> Self
        ensures { result ≡ [] }
    {
        Intervals {
            ends: BTreeMap::new(alloc),
        }
    }

    /// Takes all places out.
    pub(crate) fn clear(&mut self)
        ensures { self.new ≡ [] }
    {
        self.ends.clear();
    }

    // The last interval that begins before this place.
    fn last_before(&self, spot: u64) -> Option<Interval>
        ensures none { IfNone result ((begin : ℕ) → begin < spot → end_at self.now begin ≡ None) }
        ensures last { IfSome result (λ last. IsLast (end_at self.now) spot last.begin last.end) }
        ensures apart { AreApart (end_at self.now) }
    {
        let (begin, end) = self.ends.range(..spot).next_back()?;
        Some(Interval {
            begin: *begin,
            end: *end,
        })
    }

    /// Whether a place of the interval belongs to the set. Looks at one interval.
    pub(crate) fn meets(&self, interval: Interval) -> bool
        requires { interval.begin < interval.end }
        ensures { IsTrue result ↔ ((spot : ℕ) × IsIn spot interval × Has (end_at self.now) spot) }
    {
        match self.last_before(interval.end) {
            Some(last) => interval.begin < last.end,
            None => false,
        }
    }

    /// Whether each place of the interval belongs to the set. Looks at one interval.
    pub(crate) fn covers(&self, interval: Interval) -> bool
        requires { interval.begin < interval.end }
        ensures { IsTrue result ↔ ((spot : ℕ) → IsIn spot interval → Has (end_at self.now) spot) }
    {
        match self.last_before(interval.end) {
            Some(last) => last.begin <= interval.begin && interval.end <= last.end,
            None => false,
        }
    }

    // Where an interval begins that takes in the one which ends where this one begins.
    fn joined_begin(&self, interval: Interval) -> u64
        requires some { interval.begin < interval.end }
        requires apart { (spot : ℕ) → IsIn spot interval → Has (end_at self.now) spot → ⊥ }
        ensures { IsJoinedBegin (end_at self.now) interval.begin result }
    {
        match self.last_before(interval.begin) {
            Some(last) => {
                if last.end == interval.begin {
                    last.begin
                } else {
                    interval.begin
                }
            }
            None => interval.begin,
        }
    }

    // Where an interval ends that takes in the one which begins where this one ends.
    fn joined_end(&self, interval: Interval) -> u64
        ensures { result ≡ unwrap_or (end_at self.now interval.end) interval.end }
    {
        match self.ends.get(&interval.end) {
            Some(end) => *end,
            None => interval.end,
        }
    }

    /// Adds the places of the interval, none of which belongs to the set. Joins it to the intervals that it touches.
    pub(crate) fn add(&mut self, interval: Interval) -> Result<(), AllocError>
        requires some { interval.begin < interval.end }
        requires apart { (spot : ℕ) → IsIn spot interval → Has (end_at self.old) spot → ⊥ }
        ensures added { OnOk result ((test : ℕ → Bool) → AreThose (end_at self.old) test
            → AreThose (end_at self.new) (λ spot. is_in spot interval || test spot)) }
        ensures unchanged { OnErr result (self.new ≡ self.old) }
    {
        let begin = self.joined_begin(interval);
        let end = self.joined_end(interval);
        let _replaced = self.ends.insert(begin, end)?;
        let _taken_in = self.ends.remove(&interval.end);
        Ok(())
    }
}
