//! A rule as plain data, and why a chain can't be told.

ghost use Rattle.std.specs.Prelude.{◌≡◌};

use ob_base::{NoMemory, RecId};
use thiserror::Error;

/// A rule of a route: goods go from `src` to `dest`. A pull rule brings them where they
/// are wanted, a push rule takes them on from where they came in.
#[derive(Clone, Copy, Debug, PartialEq, Eq)]
pub struct RouteRule {
    pub id: RecId,
    pub pull: bool,
    pub src: RecId,
    pub dest: RecId,
}

impl RouteRule {
    ghost use Rattle.std.specs.Prelude.{◌↔◌, IsTrue};
    ghost use Rattle.wh_route.specs.Routes.{PullsTo, PushesFrom};

    /// Whether it is a pull rule that brings goods to the place.
    pub(crate) fn pulls_to(&self, place: RecId) -> bool
        ensures { IsTrue result ↔ PullsTo place self.now }
    {
        self.pull && self.dest == place
    }

    /// Whether it is a push rule that takes goods on from the place.
    pub(crate) fn pushes_from(&self, place: RecId) -> bool
        ensures { IsTrue result ↔ PushesFrom place self.now }
    {
        !self.pull && self.src == place
    }
}

/// Why there is no chain to answer.
#[derive(Clone, Copy, Debug, PartialEq, Eq, Error)]
pub enum RouteFault {
    /// A ninth rule would follow.
    #[error("more than 8 rules follow one another")]
    Depth,
    /// An allocation failed, so the chain isn't known.
    #[error("no memory")]
    NoMemory,
}

impl From<NoMemory> for RouteFault {
    ghost use Rattle.wh_route.specs.declared.rule.RouteFault.TheVariants as fault;

    ghost from_gives = { λ _ e. e ≡ fault.NoMemory };

    fn from(_error: NoMemory) -> RouteFault {
        RouteFault::NoMemory
    }
}
