//! The law of the call, which takes no engine: it speaks of definitions alone.

ghost use Rattle.ob_group.specs.Groups.{Groups};
ghost use Rattle.ob_query.specs.Isolation.{GoesByView};

use ob_domain::domains_go_by_fields;

/// What `read_group` may answer goes by its caller's view, as what the other calls that read may.
pub fn groups_go_by_views()
    ensures { GoesByView Groups }
{
    domains_go_by_fields();
}
