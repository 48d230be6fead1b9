//! The act for each control state, and the control state after each answer.
ghost use Rattle.std.specs.Prelude.{◌≡◌};
ghost use Rattle.turn_table.specs.declared.hands.Shape.TheVariants as shape;
ghost use Rattle.turn_table.specs.Turns.{act_of, shape_after};

use crate::hands::{Door, Look, Shape};

/// What a worker does in one turn.
#[derive(Clone, Copy, Debug, PartialEq, Eq)]
pub enum Act {
    /// Takes the notice of a completion out of the book.
    Poll,
    /// Takes a task out of the ready queue.
    Pop,
    /// Asks the book for a task that may start.
    Offer,
    /// Puts the task that it holds into the ready queue.
    Push,
    /// Starts the task that it holds, or makes its next step.
    Move,
    /// Parks the task that it holds at its meeting.
    Park,
    /// Brings the completion that it holds to its meeting.
    Arrive,
    /// Asks the book whether there is any work left.
    Idle,
}

/// What the shared object that was acted on answers.
#[derive(Clone, Copy, Debug, PartialEq, Eq)]
pub enum Answer {
    /// Nothing was found.
    None,
    /// The queue gave a task that is to be started.
    TookFresh,
    /// The queue gave a started task.
    TookLive,
    /// The book handed out a task.
    OfferedOne,
    /// The queue has taken the task.
    Put,
    /// The queue is full, and the task stays in the hand.
    Full,
    /// The step was made, and the task may go on.
    Done,
    /// The step was made, and the task waits at this meeting.
    Pending(Door),
    /// The task was released.
    Released,
    /// Others are still to come to the meeting.
    Waiting,
    /// All others had come to the meeting, and its task is in the hand.
    Last,
    /// A completion was noticed.
    Notice,
    /// Somebody may still find work.
    Work,
    /// No task may move.
    Quiet,
    /// A stop was asked for.
    Stopped,
}

/// The act that is planned in this control state.
pub fn plan(shape: Shape) -> Act
    ensures { result ≡ act_of shape }
{
    match shape {
        Shape::Nothing(Look::Poll) => Act::Poll,
        Shape::Nothing(Look::Pop) => Act::Pop,
        Shape::Nothing(Look::Offer) => Act::Offer,
        Shape::Nothing(Look::Idle) => Act::Idle,
        Shape::Offered | Shape::Resumed => Act::Push,
        Shape::Fresh | Shape::Ready => Act::Move,
        Shape::Pending(_) => Act::Park,
        Shape::Told => Act::Arrive,
    }
}

// An empty hand goes on to the next kind of look, and polls again where there is work that it did not find.
fn looked(look: Look, answer: Answer) -> Shape
    ensures { result ≡ shape_after (shape.Nothing look) answer }
{
    match (look, answer) {
        (Look::Poll, Answer::None) => Shape::Nothing(Look::Pop),
        (Look::Poll, Answer::Notice) => Shape::Told,
        (Look::Pop, Answer::None) => Shape::Nothing(Look::Offer),
        (Look::Pop, Answer::TookFresh) => Shape::Fresh,
        (Look::Pop, Answer::TookLive) => Shape::Ready,
        (Look::Offer, Answer::None) => Shape::Nothing(Look::Idle),
        (Look::Offer, Answer::OfferedOne) => Shape::Offered,
        (Look::Idle, Answer::Work) => Shape::Nothing(Look::Poll),
        (_, _) => Shape::Nothing(look),
    }
}

/// The control state after this answer. An answer that the act of the shape never gets keeps the shape.
pub fn took(shape: Shape, answer: Answer) -> Shape
    ensures { result ≡ shape_after shape answer }
{
    match (shape, answer) {
        (Shape::Nothing(look), _) => looked(look, answer),
        (Shape::Offered | Shape::Resumed, Answer::Put) => Shape::Nothing(Look::Poll),
        (Shape::Offered, Answer::Full) => Shape::Fresh,
        (Shape::Resumed, Answer::Full) => Shape::Ready,
        (Shape::Fresh, Answer::Done) => Shape::Ready,
        (Shape::Ready, Answer::Pending(door)) => Shape::Pending(door),
        (Shape::Ready, Answer::Released) => Shape::Nothing(Look::Poll),
        (Shape::Pending(_) | Shape::Told, Answer::Waiting) => Shape::Nothing(Look::Poll),
        (Shape::Pending(_), Answer::Last) => Shape::Ready,
        (Shape::Told, Answer::Last) => Shape::Resumed,
        (_, _) => shape,
    }
}
