//! What can be asked of the kinds of postings, accesses, kernels, operations and limits.

ghost use Rattle.std.specs.Prelude.{◌≡◌};
ghost use Rattle.rt_base.specs.Spans.{span_len, is_written};
ghost use Rattle.rt_base.specs.Operations.{blocks, is_receive, is_standard, is_local};
ghost use Rattle.rt_base.specs.KernelForms.{source_count, number_count};
ghost use Rattle.rt_base.specs.Limits.{most};

use crate::data::{How, Kernel, LimitName, Mode, Op, Span};

impl How {
    /// Whether the call returns only when its request is complete (MPI 4.0, 3.4 and 3.7).
    pub fn blocks(self) -> bool
        ensures { result ≡ blocks self }
    {
        match self {
            How::Send => true,
            How::Ssend => true,
            How::Recv => true,
            How::Isend => false,
            How::Issend => false,
            How::Irecv => false,
        }
    }

    /// Whether it is a receive (MPI 4.0, 3.2.4 and 3.7.2).
    pub fn is_receive(self) -> bool
        ensures { result ≡ is_receive self }
    {
        match self {
            How::Send => false,
            How::Ssend => false,
            How::Recv => true,
            How::Isend => false,
            How::Issend => false,
            How::Irecv => true,
        }
    }

    /// Whether it is a send in standard mode (MPI 4.0, 3.4).
    pub fn is_standard(self) -> bool
        ensures { result ≡ is_standard self }
    {
        match self {
            How::Send => true,
            How::Ssend => false,
            How::Recv => false,
            How::Isend => true,
            How::Issend => false,
            How::Irecv => false,
        }
    }
}

impl Mode {
    /// Whether a task may change the cells that it declares so (OmpSs-2, data accesses).
    pub fn is_written(self) -> bool
        ensures { result ≡ is_written self }
    {
        match self {
            Mode::In => false,
            Mode::Out => true,
            Mode::Inout => true,
        }
    }
}

impl Span {
    /// How many cells the span has.
    pub fn len(self) -> u32
        ensures { result ≡ span_len self }
    {
        self.to.saturating_sub(self.from)
    }
}

impl Kernel {
    /// How many sources the kernel takes, beside its destination.
    pub fn sources(self) -> usize
        ensures { result ≡ source_count self }
    {
        match self {
            Kernel::Fill => 0,
            Kernel::Ramp => 0,
            Kernel::Copy => 1,
            Kernel::Add => 2,
            Kernel::Sub => 2,
            Kernel::Scale => 1,
            Kernel::Shift => 1,
            Kernel::Jacobi2 => 1,
            Kernel::Sum => 1,
            Kernel::Least => 1,
            Kernel::Greatest => 1,
        }
    }

    /// How many numbers the kernel takes, behind its spans.
    pub fn numbers(self) -> usize
        ensures { result ≡ number_count self }
    {
        match self {
            Kernel::Fill => 1,
            Kernel::Ramp => 2,
            Kernel::Copy => 0,
            Kernel::Add => 0,
            Kernel::Sub => 0,
            Kernel::Scale => 1,
            Kernel::Shift => 1,
            Kernel::Jacobi2 => 0,
            Kernel::Sum => 0,
            Kernel::Least => 0,
            Kernel::Greatest => 0,
        }
    }
}

impl Op {
    /// Whether the operation is a local one, which makes no call.
    pub fn is_local(&self) -> bool
        ensures { result ≡ is_local self.now }
    {
        match self {
            Op::Compute { .. } => true,
            Op::Post { .. } => false,
            Op::Await { .. } => false,
        }
    }
}

impl LimitName {
    /// The greatest count of the quantity (this project's).
    pub fn number(self) -> u32
        ensures { result ≡ most self }
    {
        match self {
            LimitName::Arrays => 1_024,
            LimitName::Comms => 256,
            LimitName::Cells => 16_777_216,
            LimitName::Tasks => 65_536,
            LimitName::Accesses => 4_194_304,
            LimitName::AccessCells => 134_217_728,
            LimitName::Operations => 1_048_576,
            LimitName::Requests => 262_144,
            LimitName::Names => 1_048_576,
            LimitName::MessageCells => 67_108_864,
            LimitName::Steps => 16_777_216,
            LimitName::Pieces => 16_777_216,
        }
    }
}
