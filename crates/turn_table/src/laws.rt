//! What follows from the table alone.
ghost use Rattle.turn_table.specs.Laws.{RowsAreFollowed, OtherAnswersKeepTheShape, AnswersAreOfTheAct};

/// An answer that stands in the row of a shape leads to the shape that stands beside it.
pub fn rows_are_followed()
    ensures { RowsAreFollowed }
{}

/// Any other answer leaves the shape as it is.
pub fn other_answers_keep_the_shape()
    ensures { OtherAnswersKeepTheShape }
{}

/// The answers of a row are answers of its act.
pub fn answers_are_of_the_act()
    ensures { AnswersAreOfTheAct }
{}
