//! Candidates for removal and what they give: plain data, and the order of removal.

ghost use Rattle.std.specs.Prelude.{◌≡◌};
ghost use Rattle.wh_quant.specs.Takes.{age_cmp, date_cmp, removal_cmp};

use ob_base::{RecId, Word};
use std::cmp::Ordering;

/// What a quant has free, with what the orders of removal look at: the moment at which
/// goods came in, the moment at which the lot is to be removed, the name of the place.
#[derive(Debug, Drop)]
pub struct Stock {
    pub quant: RecId,
    pub free: i64,
    pub in_date: i64,
    pub removal: Option<i64>,
    pub place: Word,
}

/// The order of removal: first in first out, last in first out, first to be removed
/// first out (stocks without a date last), closest place.
#[derive(Clone, Copy, Debug, PartialEq, Eq)]
pub enum Removal {
    Fifo,
    Lifo,
    Fefo,
    Closest,
}

/// So many units of a quant.
#[derive(Clone, Copy, Debug, PartialEq, Eq)]
pub struct Take {
    pub quant: RecId,
    pub amount: i64,
}

impl Removal {
    /// Which of two stocks gives first.
    pub(crate) fn compare(self, a: &Stock, b: &Stock) -> Ordering
        ensures { result ≡ removal_cmp self a.now b.now }
    {
        match self {
            Removal::Fifo => by_age(a, b),
            Removal::Lifo => by_age(b, a),
            Removal::Fefo => by_date(a.removal, b.removal).then(by_age(a, b)),
            Removal::Closest => {
                let places = a.place.as_str().cmp(b.place.as_str());
                places.then(a.quant.cmp(&b.quant))
            }
        }
    }
}

/// By the moment at which goods came in, then id.
fn by_age(a: &Stock, b: &Stock) -> Ordering
    ensures { result ≡ age_cmp a.now b.now }
{
    a.in_date.cmp(&b.in_date).then(a.quant.cmp(&b.quant))
}

/// By moment, with unset last.
fn by_date(a: Option<i64>, b: Option<i64>) -> Ordering
    ensures { result ≡ date_cmp a b }
{
    match (a, b) {
        (Some(x), Some(y)) => x.cmp(&y),
        (Some(_), None) => Ordering::Less,
        (None, Some(_)) => Ordering::Greater,
        (None, None) => Ordering::Equal,
    }
}
