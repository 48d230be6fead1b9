//! What follows for lines: each law is the contract of a function that does nothing.

ghost use Rattle.trace_lines.specs.Reading.{OneEntry, OneHeader};

/// Behind so many statuses a line tells one entry at most.
pub fn one_entry_a_line()
    ensures { OneEntry }
{}

/// A line is one header at most.
pub fn one_header_a_line()
    ensures { OneHeader }
{}
