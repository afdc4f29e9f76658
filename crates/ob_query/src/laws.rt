//! Laws of the calls that read, which take no engine: they speak of definitions alone.

ghost use Rattle.ob_query.specs.Isolation.{GoesByView};
ghost use Rattle.ob_query.specs.Read.{Reads};
ghost use Rattle.ob_query.specs.Search.{SearchCounts, SearchReads, Searches};

use ob_domain::domains_go_by_fields;

/// What a call that reads may answer goes by its caller's view: over two databases that he sees
/// alike each may have the same outcomes, so that nothing tells him what he doesn't see.
pub fn reads_go_by_views()
    ensures reads { GoesByView Reads }
    ensures searches { GoesByView Searches }
    ensures counts { GoesByView SearchCounts }
    ensures objects { GoesByView SearchReads }
{
    domains_go_by_fields();
}
