//! The plain data of a program, of its run and of its history.

use crate::listed::Listed;
use crate::name::Name;

/// The number of a task, from 0: first the tasks of rank 0 in the order in which they are made, then those of rank 1, and so on.
#[derive(Clone, Copy, Debug, PartialEq, Eq)]
pub struct TaskNo(pub u32);

/// The `nth` posting operation of the body of a task, from 0, blocking ones counted (MPI 4.0, 3.7: a request).
#[derive(Clone, Copy, Debug, PartialEq, Eq)]
pub struct ReqNo {
    pub task: TaskNo,
    pub nth: u32,
}

/// The cells of an array of the task's rank, `from` up to but not including `to`.
#[derive(Clone, Copy, Debug, PartialEq, Eq)]
pub struct Span {
    pub array: u16,
    pub from: u32,
    pub to: u32,
}

/// How a task uses a region that it declares (OmpSs-2, data accesses).
#[derive(Clone, Copy, Debug, PartialEq, Eq)]
pub enum Mode {
    In,
    Out,
    Inout,
}

/// A region that a task declares (OmpSs-2, data accesses).
#[derive(Clone, Copy, Debug, PartialEq, Eq)]
pub struct Access {
    pub mode: Mode,
    pub span: Span,
}

/// Whom a receive accepts, or whom a send addresses.
#[derive(Clone, Copy, Debug, PartialEq, Eq)]
pub enum Peer {
    Rank(u16),
    /// Any source (`MPI_ANY_SOURCE`). Only a receive has it.
    Any,
    /// No process (`MPI_PROC_NULL`). The operation is complete as it is posted (MPI 4.0, 3.11).
    Null,
}

/// Which tag a receive accepts, or a send has.
#[derive(Clone, Copy, Debug, PartialEq, Eq)]
pub enum TagSel {
    Tag(u16),
    /// Any tag (`MPI_ANY_TAG`). Only a receive has it.
    Any,
}

/// How a request is posted: standard send, synchronous send and receive, each blocking or not (MPI 4.0, 3.2, 3.4 and 3.7.2).
#[derive(Clone, Copy, Debug, PartialEq, Eq)]
pub enum How {
    Send,
    Ssend,
    Recv,
    Isend,
    Issend,
    Irecv,
}

/// What a wait names: the null request, or the `n`th posting operation of the body (MPI 4.0, 3.7.3).
#[derive(Clone, Copy, Debug, PartialEq, Eq)]
pub enum Handle {
    Null,
    Nth(u32),
}

/// A numeric kernel (this project's).
#[derive(Clone, Copy, Debug, PartialEq, Eq)]
pub enum Kernel {
    Fill,
    Ramp,
    Copy,
    Add,
    Sub,
    Scale,
    Shift,
    Jacobi2,
    Sum,
    Least,
    Greatest,
}

/// The handles that a wait names, in order.
pub type Handles = Listed<Handle>;

/// An operation of a body, all its operands resolved.
#[derive(Debug, Drop)]
pub enum Op {
    /// Runs a kernel on the task's own copy. What a kernel doesn't have is None or 0.
    Compute {
        kernel: Kernel,
        dst: Span,
        left: Option<Span>,
        right: Option<Span>,
        value: i64,
        step: i64,
    },
    /// Posts a request, and waits for it where it is a blocking one. Only a `Recv` has a status span.
    Post {
        how: How,
        span: Span,
        peer: Peer,
        tag: TagSel,
        comm: u16,
        status: Option<Span>,
    },
    /// Waits for requests, or, where `later` is true, binds them to the task and goes on (TAMPI, `TAMPI_Iwait` and `TAMPI_Iwaitall`).
    Await {
        later: bool,
        handles: Handles,
        status: Option<Span>,
    },
}

/// The accesses of a task, in the order of its text.
pub type Accesses = Listed<Access>;

/// The operations of a task, in order.
pub type Body = Listed<Op>;

/// A task: its rank, the line of its word `task`, the number of taskwaits of its rank before it, its accesses and its body.
#[derive(Debug, Drop)]
pub struct TaskDef {
    pub rank: u16,
    pub line: u32,
    pub epoch: u32,
    pub accesses: Accesses,
    pub body: Body,
}

/// The names of the arrays, by number.
pub type Names = Listed<Name>;

/// The length of array `a` of rank `r`, at place `r` times the number of arrays plus `a`.
pub type Lens = Listed<u32>;

/// The cell at which each array begins, where all arrays lie one behind another, at the places of `Lens`.
pub type Starts = Listed<u32>;

/// The numbers of the shown arrays, in order.
pub type Shows = Listed<u16>;

/// The tasks of all ranks, by number.
pub type Tasks = Listed<TaskDef>;

/// A program: what a text unrolls to, for a number of ranks and an eager limit in cells.
#[derive(Debug, Drop)]
pub struct Program {
    pub ranks: u16,
    pub eager: u32,
    /// The number of communicators, world included.
    pub comms: u16,
    pub names: Names,
    pub lens: Lens,
    /// The table of where each array begins, made once from `lens` by `starts_of`.
    pub starts: Starts,
    pub shows: Shows,
    pub tasks: Tasks,
}

/// What became of a request: source, tag, number of cells stored, and error (MPI 4.0, 3.2.5). The numbers are this project's: -1 stands for any
/// source or tag, -2 for the null process, and the error is 1 where the message was longer than the span, else 0.
#[derive(Clone, Copy, Debug, PartialEq, Eq)]
pub struct Status {
    pub source: i32,
    pub tag: i32,
    pub count: u32,
    pub error: u8,
}

/// One step of a history. `from` and `count` name a range of the history's statuses.
#[derive(Clone, Copy, Debug, PartialEq, Eq)]
pub enum Entry {
    /// The task begins.
    Start {
        task: TaskNo,
    },
    /// The task calls operation `op`, and so many of the operation's requests are incomplete after it.
    Call {
        task: TaskNo,
        op: u32,
        pending: u32,
    },
    /// The task leaves the blocking operation `op`.
    Leave {
        task: TaskNo,
        op: u32,
        from: u32,
        count: u32,
    },
    /// The body of the task has ended.
    Return {
        task: TaskNo,
    },
    /// The task lets go of its accesses.
    Release {
        task: TaskNo,
        from: u32,
        count: u32,
    },
    /// A poller takes the first notice.
    Poll {
        poller: u16,
        req: ReqNo,
    },
}

/// The entries of a history, in order.
pub type Entries = Listed<Entry>;

/// The statuses of a history, in order.
pub type Statuses = Listed<Status>;

/// What happened in a run: the steps in order, and the statuses that they name.
#[derive(Debug, Drop)]
pub struct History {
    pub entries: Entries,
    pub statuses: Statuses,
}

/// Where a task stands. `At` and `In` have the number of an operation of its body, from 0.
#[derive(Clone, Copy, Debug, PartialEq, Eq)]
pub enum Phase {
    /// Not started.
    Waiting,
    /// The operation is next.
    At(u32),
    /// In the blocking operation.
    In(u32),
    /// The body has ended.
    Ended,
    /// Returned, with requests perhaps still bound to it.
    Returned,
    /// Its accesses are let go.
    Released,
}

/// The phases of all tasks, by number.
pub type Phases = Listed<Phase>;

/// An owned list of cells.
pub type Cells = Listed<i64>;

/// What is wrong with a text, in the order in which one statement is tested.
#[derive(Clone, Copy, Debug, PartialEq, Eq)]
pub enum FaultKind {
    Byte,
    Number,
    Name,
    Shape,
    Depth,
    Place,
    Open,
    UnknownName,
    NameTaken,
    Overflow,
    DivisionByZero,
    BadSize,
    BadSpan,
    BadRank,
    BadTag,
    AccessOverlap,
    NotDeclared,
    NotWritable,
    LengthMismatch,
    BadShift,
    EmptySource,
    StatusLength,
    RequestTwice,
    RequestBusy,
    InUse,
    RequestLeft,
    NoTrace,
    TraceHeader,
}

/// A counted quantity that has a limit.
#[derive(Clone, Copy, Debug, PartialEq, Eq)]
pub enum LimitName {
    Arrays,
    Comms,
    Cells,
    Tasks,
    Accesses,
    AccessCells,
    Operations,
    Requests,
    Names,
    MessageCells,
    Steps,
    Pieces,
}
