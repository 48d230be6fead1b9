//! What may be left at a meeting.

ghost use Rattle.std.specs.Prelude.{ℕ, List};
ghost use Rattle.atomic_table.specs.Seated.{TableId};

/// A record that a holder parks, or a note that a ticket brings. It has no calls.
pub trait Guest {
    // Whether it fits a hall, a meeting of it, and a list of places.
    ghost fits: { Self → TableId → ℕ → List ℕ → Type 0 };
}
