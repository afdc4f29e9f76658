//! The answer of a call to the outside that failed, and the count of errors of the host.
//! A form of the host passes what it is answered through here.

ghost use Rattle.std.specs.Prelude.{◌≡◌, IsErr, MatchResult, Ok, Err, is_err};
ghost use Rattle.ob_io.specs.Cause.{HasCause};
ghost use Rattle.ob_io.specs.Faults.{count_after};

use std::io;
use thiserror::Error;

/// The thing outside failed. Its count of faults rose in the call, as far as a u64 can.
#[derive(Clone, Copy, Debug, PartialEq, Eq, Error)]
#[error("the outside failed")]
pub struct Failed;

/// What the host answered, as a thing outside answers it: each error is counted.
pub(crate) fn counted(told: io::Result<usize>, faults: &mut u64) -> Result<usize, Failed>
    ensures answer { MatchResult told (λ n. result ≡ Ok n) (λ _. result ≡ Err (record {})) }
    ensures count { faults.new ≡ count_after (is_err told) faults.old }
    ensures cause { HasCause faults.old faults.new (IsErr result) }
{
    match told {
        Ok(count) => Ok(count),
        Err(_) => {
            *faults = faults.saturating_add(1);
            Err(Failed)
        }
    }
}
