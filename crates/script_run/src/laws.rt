//! Where a run may begin.
ghost use Rattle.script_run.specs.Beginning.{EmptyBegins, StoresStand};

use run_laws::runs_open;
use store_model::images_stand;

/// A law: on disks that have nothing, a run begins with nothing.
pub fn empty_disks_begin()
    ensures { EmptyBegins }
{
    runs_open();
}

/// A law: wherever settled disks stand, the source's with one log, there a run stands.
pub fn stores_stand()
    ensures { StoresStand }
{
    images_stand();
}
