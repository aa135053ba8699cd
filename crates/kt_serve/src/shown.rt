//! What a scan shows.
ghost use Rattle.std.specs.Prelude.{◌≡◌, ◌≤◌, IfOk};
ghost use Rattle.std.specs.List.{All};
ghost use Rattle.kt_history.specs.Replies.{shown};
ghost use Rattle.kt_history.specs.Rows.{Rows};
ghost use Rattle.kt_scan.specs.Encoded.{keys_of};
ghost use Rattle.kt_scan.specs.Live.{AreRowsOf, row_in};
ghost use Rattle.kt_tablet.specs.Copies.{mark_of};
ghost use Rattle.kt_serve.specs.Scans.{snap_row};

use kt_base::NoMemory;
use kt_diskrowset::RowSetView;
use kt_engine::Snap;
use kt_history::{RowList, Scan, View};
use kt_scan::laws::live_law;
use kt_scan::run;
use kt_schema::Schema;
use std::alloc::Global;

// What a scan shows of the rows that these views have at t, told from a mark on.
fn rows_shown<V: View>(
    alloc: Global,
    schema: &Schema,
    views: &[V],
    scan: &Scan,
    mark: u64,
    t: u64,
) -> Result<RowList, NoMemory>
    requires since { mark ≤ t }
    requires told { All (λ v. V.mark v ≤ mark) views.now }
    ensures rows { IfOk result (λ listed. (rows : Rows) → AreRowsOf (λ key. row_in V.row_of views.now key t) rows → listed ≡ shown (keys_of schema.now) scan.now rows) }
{
    let rows = run(alloc, views, t, scan, schema, mark)?;
    live_law(views, t);
    Ok(rows)
}

/// What a scan shows of the rows that a snapshot has at its time. The rows of disk rowsets are put together here.
pub fn snap_shown(
    alloc: Global,
    schema: &Schema,
    snap: &Snap<RowSetView>,
    scan: &Scan,
) -> Result<RowList, NoMemory>
    requires since { snap.now.mark ≤ snap.now.t }
    requires told { All (λ v. mark_of v ≤ snap.now.mark) snap.now.views }
    ensures rows { IfOk result (λ listed. (rows : Rows) → AreRowsOf (snap_row snap.now) rows → listed ≡ shown (keys_of schema.now) scan.now rows) }
{
    let views = snap.read(alloc)?;
    rows_shown(alloc, schema, &views, scan, snap.mark, snap.t)
}
