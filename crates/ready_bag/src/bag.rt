//! What a bag of ready items promises, whatever it stands on.

ghost use Rattle.std.specs.Prelude.{◌≡◌, OnOk, OnErr, IfErr, IfSome, IfNone};
ghost use Rattle.ready_bag.specs.declared.counts.Counts.{Counts};
ghost use Rattle.ready_bag.specs.Counts.{PutsRose, FullsRose, TakesRose, EmptiesRose};

use std::sync::Wait;

/// A bag of items that threads share. Each caller has a pass.
pub trait ReadyBag<T> {
    /// What one caller knows of a bag.
    type Pass: Drop;

    /// The pass belongs to the bag.
    ghost IsOf: { Self.Pass → Self → Type 0 };

    /// The counts of the answers to the calls with this pass.
    ghost counts: { Self.Pass → Counts };

    /// The bag was full at one moment of the call, with what the pass knows of what lay in it then.
    ghost WasFull: { Self → Self.Pass → Type 0 };

    /// The bag was empty at one moment of the call; of several parts each was, at a moment of its own.
    ghost WasEmpty: { Self → Self.Pass → Type 0 };

    /// Puts an item. Where the bag is full, the item comes back.
    fn put<R: Wait>(&self, rt: &R, pass: &mut Self::Pass, item: T) -> Result<(), T>
        requires { IsOf pass.old self.now }
        ensures home { IsOf pass.new self.now }
        ensures ok { OnOk result (PutsRose (counts pass.old) (counts pass.new)) }
        ensures err { OnErr result (FullsRose (counts pass.old) (counts pass.new)) }
        ensures full { OnErr result (WasFull self.now pass.old) }
        ensures back { IfErr result (λ back. back ≡ item) };

    /// Takes an item.
    fn take<R: Wait>(&self, rt: &R, pass: &mut Self::Pass) -> Option<T>
        requires { IsOf pass.old self.now }
        ensures home { IsOf pass.new self.now }
        ensures some { IfSome result (λ _. TakesRose (counts pass.old) (counts pass.new)) }
        ensures none { IfNone result (EmptiesRose (counts pass.old) (counts pass.new)) }
        ensures empty { IfNone result (WasEmpty self.now pass.old) };
}
