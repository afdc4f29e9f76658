//! Where a quant stands: a product, a place and a lot. The key by which quants are found.

ghost use Rattle.std.specs.Prelude.{◌≡◌};

use ob_base::RecId;

/// A product at a place, of a lot or of none.
#[derive(Clone, Copy, Debug, PartialEq, Eq, PartialOrd, Ord)]
pub(crate) struct Spot {
    pub(crate) product: RecId,
    pub(crate) place: RecId,
    pub(crate) lot: Option<RecId>,
}
