//! Laws of the machine, which take no engine: they speak of definitions alone.

ghost use Rattle.ob_server.specs.Isolation.{BodiesGoByViews, RepliesGoByViews};
ghost use Rattle.ob_server.specs.Setup.{Setup};

use ob_group::groups_go_by_views;
use ob_query::reads_go_by_views;

/// What a call that reads tells its caller goes by his view: over two databases that he sees alike
/// the machine may give the same replies, byte for byte, to a call and to the bytes of a request that
/// makes it, so that no reply tells him of what he doesn't see.
pub fn replies_go_by_views()
    ensures calls { (setup : Setup) → RepliesGoByViews setup }
    ensures bodies { (setup : Setup) → BodiesGoByViews setup }
{
    reads_go_by_views();
    groups_go_by_views();
}
