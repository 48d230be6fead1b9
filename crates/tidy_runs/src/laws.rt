//! What follows from the definitions alone.

ghost use Rattle.tidy_runs.specs.Tidy.{RunsAreTidy};
ghost use Rattle.tidy_runs.specs.Openings.{MovesOpenTheirOwn, NothingIsOpenedTwice, OpenedAreNew, OwedWereOpened};
ghost use Rattle.tidy_runs.specs.Openings.{BoundWereOpened, MovesOpen, OpenedAreOwed, ExpectedStays};

/// After every run of a program that may be run each task is tidy: it has named exactly the operations that bind and that it has called, in their
/// order; what is bound to it are requests of its own that it posted and that no later wait names, each once, and everything that it named is
/// complete or bound; what it awaits are requests of its own, each once, and none of them is bound (MPI 4.0, 3.7.3; TAMPI, `TAMPI_Iwait`).
pub fn runs_are_tidy()
    ensures { RunsAreTidy }
{}

/// A move opens requests of its own task. In a program that may be run each request is opened at most once, so the next move opens nothing that was
/// opened before it; and what a task is still to be told of was opened (MPI 4.0, 3.7.3; TAMPI, completion by polling).
pub fn nothing_is_opened_twice()
    ensures own { MovesOpenTheirOwn }
    ensures once { NothingIsOpenedTwice }
    ensures new { OpenedAreNew }
    ensures owed { OwedWereOpened }
{}

/// What is bound to a task after a run was opened in it (TAMPI, `TAMPI_Iwait`).
pub fn bound_were_opened()
    ensures { BoundWereOpened }
{}

/// What a move opens is incomplete after it. A move into a blocking operation binds nothing and opens exactly what the task awaits there and is
/// incomplete, and where that is nothing the task may go on; every other move binds exactly what it opens (MPI 4.0, 3.4 and 3.7.3; TAMPI,
/// `TAMPI_Iwait`).
pub fn moves_open()
    ensures { MovesOpen }
{}

/// What a move opens is owed after it: it is incomplete, and bound or awaited, so that a task is still to be told of it (TAMPI, completion by polling).
pub fn opened_are_owed()
    ensures { OpenedAreOwed }
{}

/// An incomplete request that is bound, or awaited by a task in a blocking operation, is still so after any move (TAMPI, `TAMPI_Iwait`).
pub fn expected_stays()
    ensures { ExpectedStays }
{}
