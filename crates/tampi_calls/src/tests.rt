//! A hand that a worker begins with.
ghost use Rattle.std.specs.Prelude.{◌≡◌};
ghost use Rattle.shared_lists.specs.Sound.{IsPoller};

use crate::{Hand, Look, Run, Shape, Site};
use pass_table::{Pass, PassTable};
use std::marker::Brand;
use std::test::Fail;

// The shape and the worker of a new hand.
fn begun<K: Run, H: Site>(worker: u16, pass: Pass) -> (Shape, u16)
    requires pass { pass.table ≡ K.passes }
    requires poller { IsPoller K.program K.workers pass.caller }
{
    let hand = Hand::<K, H, bool>::new(worker, pass, true);
    (hand.shape(), hand.worker())
}

#[test]
fn a_worker_begins_with_an_empty_hand(rt: HostRuntime) -> Result<(), Fail> {
    let (_table, _pen, mut passes) = PassTable::build(rt.alloc(), 1)?;
    let pass = passes.pop().ok_or("a pass for each caller")?;
    assert_eq!(rt;
        begun::<Brand, Brand>(7, pass),
        (Shape::Nothing(Look::Poll), 7)
    );
    Ok(())
}
