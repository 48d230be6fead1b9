//! The number of the operation at which a task stands, or in which it is.

ghost use Rattle.std.specs.Prelude.{◌≡◌};
ghost use Rattle.book_parts.specs.Kept.{IsCallAt, IsBlockedAt};

use task_local::At;

/// The number of the call that is next.
pub fn call_place(at: At) -> u32
    requires { IsCallAt at }
    ensures { at ≡ At.Call result }
{
    match at {
        At::Local => unreachable!(),
        At::Fresh => unreachable!(),
        At::Call(k) => k,
        At::In(_) => unreachable!(),
        At::Ended => unreachable!(),
        At::Returned => unreachable!(),
        At::Released => unreachable!(),
    }
}

/// The number of the operation in which a task is blocked.
pub fn blocked_place(at: At) -> u32
    requires { IsBlockedAt at }
    ensures { at ≡ At.In result }
{
    match at {
        At::Local => unreachable!(),
        At::Fresh => unreachable!(),
        At::Call(_) => unreachable!(),
        At::In(k) => k,
        At::Ended => unreachable!(),
        At::Returned => unreachable!(),
        At::Released => unreachable!(),
    }
}
