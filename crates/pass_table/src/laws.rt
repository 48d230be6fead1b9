//! What follows from the definitions alone.

ghost use Rattle.pass_table.specs.Laws.{FrontsAreOfOneList, EachCallerHasItsPass};

/// Of two fronts of one list one is a front of the other. So two that are fronts of one pen's list agree.
pub fn fronts_are_of_one_list()
    ensures { FrontsAreOfOneList }
{}

/// Each caller has a pass of its own among the first ones, and no two of them name one caller.
pub fn each_caller_has_its_pass()
    ensures { EachCallerHasItsPass }
{}
