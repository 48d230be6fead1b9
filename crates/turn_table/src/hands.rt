//! What a worker's hand holds, without the contents.
ghost use Rattle.std.specs.Prelude.{◌≡◌};
ghost use Rattle.turn_table.specs.Turns.{beginning};

/// Which of a task's two meetings with its completions: its pause in a blocking call (blocking context),
/// or its bound requests after its body (event counter).
#[derive(Clone, Copy, Debug, PartialEq, Eq)]
pub enum Door {
    Pause,
    Events,
}

/// What an empty hand looks for next.
#[derive(Clone, Copy, Debug, PartialEq, Eq)]
pub enum Look {
    /// A completion whose notice stands in the book.
    Poll,
    /// A task in the ready queue.
    Pop,
    /// A task of the book that may start.
    Offer,
    /// Nothing was found: whether there is any work left at all.
    Idle,
}

/// The control state of a worker: what its hand holds, without the contents.
#[derive(Clone, Copy, Debug, PartialEq, Eq)]
pub enum Shape {
    Nothing(Look),
    /// A task that the book handed out and that has not been in the ready queue.
    Offered,
    /// A task that is to be started.
    Fresh,
    /// A started task with an enabled step.
    Ready,
    /// A task whose last step waits for completions at this meeting, and that is to be parked there.
    Pending(Door),
    /// The notice of a completion.
    Told,
    /// A task that was woken by the completion that this worker brought.
    Resumed,
}

impl Shape {
    /// The control state with which a worker begins.
    pub fn beginning() -> Shape
        ensures { result ≡ beginning }
    {
        Shape::Nothing(Look::Poll)
    }
}
