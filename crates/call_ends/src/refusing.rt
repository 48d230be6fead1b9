//! The one line of a call that runs nothing.
ghost use Rattle.std.specs.Prelude.{◌≡◌, ◌++◌, IfOk, OnOk};
ghost use Rattle.std.specs.Fmt.{decimal};
ghost use Rattle.rt_base.specs.Limits.{most};
ghost use Rattle.call_ends.specs.Ending.{kind_text, fault_text, limit_name, limit_text, refusal_text};

use crate::ending::Refusal;
use rt_base::{FaultKind, LimitName};
use std::alloc::{AllocError, Global};

// Puts the words behind the text.
fn put(text: &mut Vec<u8>, words: &str) -> Result<(), AllocError>
    ensures { OnOk result (text.new.items ≡ text.old.items ++ words.now) }
{
    text.extend_from_slice(words.as_bytes())
}

// Puts the number behind the text.
fn put_number(alloc: Global, text: &mut Vec<u8>, number: u32) -> Result<(), AllocError>
    ensures { OnOk result (text.new.items ≡ text.old.items ++ decimal number) }
{
    put(text, number.to_string(alloc)?.as_str())
}

// The name of a kind of fault.
fn kind_text(kind: FaultKind) -> &'static str
    ensures { result.now ≡ kind_text kind }
{
    match kind {
        FaultKind::Byte => "Byte",
        FaultKind::Number => "Number",
        FaultKind::Name => "Name",
        FaultKind::Shape => "Shape",
        FaultKind::Depth => "Depth",
        FaultKind::Place => "Place",
        FaultKind::Open => "Open",
        FaultKind::UnknownName => "UnknownName",
        FaultKind::NameTaken => "NameTaken",
        FaultKind::Overflow => "Overflow",
        FaultKind::DivisionByZero => "DivisionByZero",
        FaultKind::BadSize => "BadSize",
        FaultKind::BadSpan => "BadSpan",
        FaultKind::BadRank => "BadRank",
        FaultKind::BadTag => "BadTag",
        FaultKind::AccessOverlap => "AccessOverlap",
        FaultKind::NotDeclared => "NotDeclared",
        FaultKind::NotWritable => "NotWritable",
        FaultKind::LengthMismatch => "LengthMismatch",
        FaultKind::BadShift => "BadShift",
        FaultKind::EmptySource => "EmptySource",
        FaultKind::StatusLength => "StatusLength",
        FaultKind::RequestTwice => "RequestTwice",
        FaultKind::RequestBusy => "RequestBusy",
        FaultKind::InUse => "InUse",
        FaultKind::RequestLeft => "RequestLeft",
        FaultKind::NoTrace => "NoTrace",
        FaultKind::TraceHeader => "TraceHeader",
    }
}

// Puts the line of a fault of the text behind the text.
fn put_fault(
    alloc: Global,
    text: &mut Vec<u8>,
    line: u32,
    kind: FaultKind,
) -> Result<(), AllocError>
    ensures { OnOk result (text.new.items ≡ text.old.items ++ fault_text line kind) }
{
    put(text, "refused ")?;
    put_number(alloc, text, line)?;
    put(text, " ")?;
    put(text, kind_text(kind))?;
    put(text, "\n")
}

// The name of a limit.
fn limit_name(which: LimitName) -> &'static str
    ensures { result.now ≡ limit_name which }
{
    match which {
        LimitName::Arrays => "arrays",
        LimitName::Comms => "comms",
        LimitName::Cells => "cells",
        LimitName::Tasks => "tasks",
        LimitName::Accesses => "accesses",
        LimitName::AccessCells => "access_cells",
        LimitName::Operations => "operations",
        LimitName::Requests => "requests",
        LimitName::Names => "names",
        LimitName::MessageCells => "message_cells",
        LimitName::Steps => "steps",
        LimitName::Pieces => "pieces",
    }
}

// Puts the line of a limit behind the text.
fn put_limit(alloc: Global, text: &mut Vec<u8>, which: LimitName) -> Result<(), AllocError>
    ensures { OnOk result (text.new.items ≡ text.old.items ++ limit_text which) }
{
    put(text, "limit ")?;
    put(text, limit_name(which))?;
    put(text, " ")?;
    put_number(alloc, text, which.number())?;
    put(text, "\n")
}

/// The one line of a refusal, with its LF.
pub fn line_of(alloc: Global, refusal: Refusal) -> Result<Vec<u8>, AllocError>
    ensures { IfOk result (λ text. text.items ≡ refusal_text refusal) }
{
    let mut text = Vec::new(alloc);
    match refusal {
        Refusal::Words => put(&mut text, "words refused\n")?,
        Refusal::ReadFault => put(&mut text, "read fault\n")?,
        Refusal::TooLong => put(&mut text, "too long\n")?,
        Refusal::Fault { line, kind } => put_fault(alloc, &mut text, line, kind)?,
        Refusal::Limit { which } => put_limit(alloc, &mut text, which)?,
    }
    Ok(text)
}
