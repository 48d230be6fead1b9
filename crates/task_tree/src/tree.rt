//! The tree of a text: its statements, in order, each with its line.

use crate::expr::Expr;
use rt_base::{How, Kernel, Listed, Mode, Name};

/// A span as it is written: the cells of the named array, `from` up to but not including `to`.
#[derive(Drop)]
pub struct SpanText {
    pub array: Name,
    pub from: Expr,
    pub to: Expr,
}

/// Whom a message goes to or comes from, as it is written.
#[derive(Drop)]
pub enum PeerText {
    /// The rank of this number.
    At(Expr),
    /// `any`: every rank (MPI 4.0, 3.2.4: any source).
    Any,
    /// `null`: no rank (MPI 4.0, 3.11: the null process).
    Null,
}

/// The tag of a message, as it is written.
#[derive(Drop)]
pub enum TagText {
    /// The tag of this number.
    At(Expr),
    /// `any`: every tag (MPI 4.0, 3.2.4: any tag).
    Any,
}

/// Several spans, in order.
pub type SpanTexts = Listed<SpanText>;

/// Several expressions, in order.
pub type Exprs = Listed<Expr>;

/// Several names, in order.
pub type NameList = Listed<Name>;

/// What a statement says.
#[derive(Drop)]
pub enum What {
    /// `array NAME , expr`: an array of so many cells.
    Array {
        name: Name,
        len: Expr,
    },
    /// `show NAME`: an array that the report shows.
    Show {
        name: Name,
    },
    /// `comm NAME`: a communicator (MPI 4.0, 7.2).
    Comm {
        name: Name,
    },
    /// `let NAME = expr`: a variable gets a value.
    Let {
        name: Name,
        value: Expr,
    },
    /// `for NAME = expr .. expr`: a block, once for each value.
    For {
        name: Name,
        from: Expr,
        to: Expr,
    },
    /// `if expr`: a block, where the value isn't 0.
    If {
        test: Expr,
    },
    /// `else`: the block of an `if` whose value is 0.
    Else,
    /// `end`: the innermost open block ends.
    End,
    /// `taskwait`: later tasks of the rank wait for all earlier ones (OmpSs-2, taskwait).
    Taskwait,
    /// `task`: a task begins.
    Task,
    /// `in SPAN`, `out SPAN`, `inout SPAN`: a data access of the task (OmpSs-2, data accesses).
    Touch {
        mode: Mode,
        span: SpanText,
    },
    /// `do`: the accesses of the task end, and its body begins.
    Do,
    /// A kernel with its spans and its numbers, in the order of the line.
    Kern {
        kernel: Kernel,
        spans: SpanTexts,
        values: Exprs,
    },
    /// A message that is sent or received (MPI 4.0, 3.2, 3.4 and 3.7.2). A blocking call has no handle, and only `recv` a status span.
    Posting {
        how: How,
        handle: Option<Name>,
        span: SpanText,
        peer: PeerText,
        tag: TagText,
        comm: Option<Name>,
        status: Option<SpanText>,
    },
    /// `wait`, `waitall`, and where `later` is true `iwait`, `iwaitall` (MPI 4.0, 3.7.3 and 3.7.5; TAMPI, `TAMPI_Iwait`).
    Waiting {
        later: bool,
        handles: NameList,
        status: Option<SpanText>,
    },
}

/// A statement, and the line it stands on, counted from 1.
#[derive(Drop)]
pub struct Stmt {
    pub line: u32,
    pub what: What,
}

/// The statements of a text, in order.
pub type Tree = Listed<Stmt>;
