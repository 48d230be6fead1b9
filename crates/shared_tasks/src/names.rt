//! What comes out of a lock, a bag or a slot is known by its type alone. So a run and its hall have names.

use std::marker::Brand;

/// Names a run: its program, its number of workers, and its table of passes. Contracts alone see it. A call that begins a run picks it.
pub trait Run {
    ghost use Rattle.std.specs.Prelude.{ℕ};
    ghost use Rattle.rt_base.specs.declared.data.Program.{Program};
    ghost use Rattle.pass_table.specs.Passes.{TableId};

    ghost program: { Program };

    ghost workers: { ℕ };

    ghost passes: { TableId };
}

impl Run for Brand {
    ghost use Rattle.shared_tasks.specs.Names.{no_program, no_table};

    ghost program = { no_program };

    ghost workers = { 0 };

    ghost passes = { no_table };
}

/// Names the hall of a run. Contracts alone see it. A call that builds the hall picks it.
pub trait Site {
    ghost use Rattle.pass_table.specs.Passes.{TableId};

    ghost hall: { TableId };
}

impl Site for Brand {
    ghost use Rattle.shared_tasks.specs.Names.{no_table};

    ghost hall = { no_table };
}
