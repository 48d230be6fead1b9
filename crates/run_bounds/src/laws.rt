//! What follows from the definitions alone.

ghost use Rattle.run_bounds.specs.Fits.{RunsFit};
ghost use Rattle.run_bounds.specs.Bounds.{RunsStayShort, BoundsAreFew};

/// After every run of a program that may be run its tasks are those of the program, each stands before a call or in one that blocks (or waits, has
/// ended, returned or been released), and each request that is posted is one of those that its task has posted where it stands (MPI 4.0, 2.4.2).
pub fn runs_fit()
    ensures { RunsFit }
{}

/// A run of a program that may be run has at most an entry for each move of its tasks and for each request, at most a status for each posting and
/// for each handle of a wait, and at most a notice for each request.
pub fn runs_stay_short()
    ensures { RunsStayShort }
{}

/// These numbers of a program that may be run are below 2^32.
pub fn bounds_are_few()
    ensures { BoundsAreFew }
{}
