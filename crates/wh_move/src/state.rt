//! The states of a move. Plain data and one table: which state follows is said in
//! specs/States, and changes only there.

ghost use Rattle.std.specs.Prelude.{◌≡◌, pos, ◌≤ℤ◌};
ghost use Rattle.wh_move.specs.States.{IsNextState, next_state_of};

/// The state of a move. `Draft`, `Done` and `Cancel` come of calls; the others are
/// those of a move that is open, by how much of its demand is reserved.
#[derive(Clone, Copy, Debug, PartialEq, Eq, PartialOrd, Ord, Hash)]
pub enum MoveState {
    Draft,
    Waiting,
    Confirmed,
    PartiallyAvailable,
    Assigned,
    Done,
    Cancel,
}

/// The state of an open move of which `reserved` units of the `demand` are reserved.
/// `waits` tells whether a move that it takes its goods from is still open. It answers at
/// numbers that no open move has, too: `total` says what.
pub fn next_state(reserved: i64, demand: i64, waits: bool) -> MoveState
    ensures total { result ≡ next_state_of reserved demand waits }
    ensures state { IsNextState reserved demand waits result }

    // Where from 0 to all of the demand is reserved, no other state is it.
    ensures only { pos 0 ≤ℤ reserved → reserved ≤ℤ demand → (other : MoveState)
        → IsNextState reserved demand waits other → other ≡ result }
{
    if reserved == demand {
        MoveState::Assigned
    } else if reserved > 0 && reserved < demand {
        MoveState::PartiallyAvailable
    } else if reserved == 0 && waits {
        MoveState::Waiting
    } else {
        MoveState::Confirmed
    }
}
