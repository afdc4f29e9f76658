//! Why a question about a row gets no answer.

use ob_base::NoMemory;
use ob_domain::HoldFault;

/// Why there is no answer.
#[derive(Drop)]
pub(crate) enum Unanswered {
    /// The question wasn't to be answered.
    Failed,
    NoMemory,
}

impl From<HoldFault<Unanswered>> for Unanswered {
    fn from(fault: HoldFault<Unanswered>) -> Unanswered {
        match fault {
            HoldFault::Fact(why) => why,
            HoldFault::NoMemory => Unanswered::NoMemory,
        }
    }
}

impl From<NoMemory> for Unanswered {
    fn from(_error: NoMemory) -> Unanswered {
        Unanswered::NoMemory
    }
}
