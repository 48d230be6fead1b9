//! The holders of a task that was not offered.

ghost use Rattle.std.specs.Prelude.{◌≡◌, ◌+◌, ◌*◌, ◌≤◌, [], length, slice_get, slice_set, Some, None, vec_capacity};
ghost use Rattle.shared_book.specs.declared.pairs.Pair.{Pair as PairIs};
ghost use Rattle.shared_book.specs.Computed.{pairs_in, odd_in};

use meet_hall::Holder;
use rt_base::TaskNo;

// The holders of a task's pause meeting and of its event meeting.
#[derive(Drop)]
pub(crate) struct Pair {
    pub(crate) pause: Holder,
    pub(crate) events: Holder,
}

// The holders that lie there for the task.
pub(crate) fn take_pair(pairs: &mut Vec<Option<Pair>>, task: TaskNo) -> Pair
    requires there { (pair : PairIs) × (slice_get pairs.old.items task.0 ≡ Some (Some pair)) }
    ensures pair { slice_get pairs.old.items task.0 ≡ Some (Some result) }
    ensures pairs { pairs.new.items ≡ slice_set pairs.old.items task.0 None }
{
    let lying = pairs[task.0 as usize].take();
    let Some(pair) = lying else { unreachable!() };
    pair
}

// The holders, two by two, and the one that is left.
pub(crate) fn paired(
    room: Vec<Option<Pair>>,
    holders: Vec<Holder>,
) -> (Vec<Option<Pair>>, Option<Holder>)
    requires empty { room.items ≡ [] }
    requires room { length holders.items ≤ 2 * vec_capacity room + 1 }
    ensures pairs { result.0.items ≡ pairs_in holders.items }
    ensures odd { result.1 ≡ odd_in holders.items }
{
    let mut pairs = room;
    let mut before = None;
    for holder in holders {
        match before.take() {
            None => before = Some(holder),
            Some(pause) => pairs.push_reserved(Some(Pair {
                pause,
                events: holder,
            })),
        }
    }
    (pairs, before)
}
