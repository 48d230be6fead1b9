//! The whole table, row by row, and all pairs beside it.
use crate::{Act, Answer, Door, Look, Shape, plan, took};

const EMPTY: Shape = Shape::Nothing(Look::Poll);

const PAUSE: Shape = Shape::Pending(Door::Pause);

const EVENTS: Shape = Shape::Pending(Door::Events);

// Shape, act, answer and the shape after it.
const ROWS: [(Shape, Act, Answer, Shape); 25] = [
    (EMPTY, Act::Poll, Answer::None, Shape::Nothing(Look::Pop)),
    (EMPTY, Act::Poll, Answer::Notice, Shape::Told),
    (
        Shape::Nothing(Look::Pop),
        Act::Pop,
        Answer::None,
        Shape::Nothing(Look::Offer),
    ),
    (
        Shape::Nothing(Look::Pop),
        Act::Pop,
        Answer::TookFresh,
        Shape::Fresh,
    ),
    (
        Shape::Nothing(Look::Pop),
        Act::Pop,
        Answer::TookLive,
        Shape::Ready,
    ),
    (
        Shape::Nothing(Look::Offer),
        Act::Offer,
        Answer::None,
        Shape::Nothing(Look::Idle),
    ),
    (
        Shape::Nothing(Look::Offer),
        Act::Offer,
        Answer::OfferedOne,
        Shape::Offered,
    ),
    (Shape::Nothing(Look::Idle), Act::Idle, Answer::Work, EMPTY),
    (
        Shape::Nothing(Look::Idle),
        Act::Idle,
        Answer::Quiet,
        Shape::Nothing(Look::Idle),
    ),
    (
        Shape::Nothing(Look::Idle),
        Act::Idle,
        Answer::Stopped,
        Shape::Nothing(Look::Idle),
    ),
    (Shape::Offered, Act::Push, Answer::Put, EMPTY),
    (Shape::Offered, Act::Push, Answer::Full, Shape::Fresh),
    (Shape::Resumed, Act::Push, Answer::Put, EMPTY),
    (Shape::Resumed, Act::Push, Answer::Full, Shape::Ready),
    (Shape::Fresh, Act::Move, Answer::Done, Shape::Ready),
    (Shape::Ready, Act::Move, Answer::Done, Shape::Ready),
    (Shape::Ready, Act::Move, Answer::Pending(Door::Pause), PAUSE),
    (
        Shape::Ready,
        Act::Move,
        Answer::Pending(Door::Events),
        EVENTS,
    ),
    (Shape::Ready, Act::Move, Answer::Released, EMPTY),
    (PAUSE, Act::Park, Answer::Waiting, EMPTY),
    (PAUSE, Act::Park, Answer::Last, Shape::Ready),
    (EVENTS, Act::Park, Answer::Waiting, EMPTY),
    (EVENTS, Act::Park, Answer::Last, Shape::Ready),
    (Shape::Told, Act::Arrive, Answer::Waiting, EMPTY),
    (Shape::Told, Act::Arrive, Answer::Last, Shape::Resumed),
];

const SHAPES: [Shape; 11] = [
    Shape::Nothing(Look::Poll),
    Shape::Nothing(Look::Pop),
    Shape::Nothing(Look::Offer),
    Shape::Nothing(Look::Idle),
    Shape::Offered,
    Shape::Fresh,
    Shape::Ready,
    Shape::Pending(Door::Pause),
    Shape::Pending(Door::Events),
    Shape::Told,
    Shape::Resumed,
];

const ANSWERS: [Answer; 16] = [
    Answer::None,
    Answer::TookFresh,
    Answer::TookLive,
    Answer::OfferedOne,
    Answer::Put,
    Answer::Full,
    Answer::Done,
    Answer::Pending(Door::Pause),
    Answer::Pending(Door::Events),
    Answer::Released,
    Answer::Waiting,
    Answer::Last,
    Answer::Notice,
    Answer::Work,
    Answer::Quiet,
    Answer::Stopped,
];

#[test]
fn a_worker_begins_with_a_look_for_notices(rt: HostRuntime) {
    assert_eq!(rt; Shape::beginning(), Shape::Nothing(Look::Poll));
}

#[test]
fn each_row_of_the_table_is_followed(rt: HostRuntime) {
    for (shape, act, answer, next) in ROWS {
        assert_eq!(rt; plan(shape), act, "{shape:?}");
        assert_eq!(rt; took(shape, answer), next, "{shape:?} {answer:?}");
    }
}

#[test]
fn every_other_answer_keeps_the_shape(rt: HostRuntime) {
    let mut others = 0u32;
    for shape in SHAPES {
        for answer in ANSWERS {
            if !ROWS.iter().any(|row| row.0 == shape && row.2 == answer) {
                assert_eq!(rt; took(shape, answer), shape, "{answer:?}");
                others = others.saturating_add(1);
            }
        }
    }
    assert_eq!(rt; others, 151);
}
