//! The kinds of the columns that a scan shows.
ghost use Rattle.std.specs.Prelude.{◌≡◌, IfOk};
ghost use Rattle.kt_history.specs.Replies.{kinds_of};
ghost use Rattle.kt_app.specs.Session.{on_table};

use kt_base::NoMemory;
use kt_history::Scan;
use kt_schema::Schema;
use kt_script::KindList;
use std::alloc::Global;

/// The kinds of the columns that a scan shows.
pub fn kinds_shown(alloc: Global, schema: &Schema, scan: &Scan) -> Result<KindList, NoMemory>
    ensures { IfOk result (λ kinds. kinds ≡ kinds_of (on_table schema.now) scan.now.columns) }
{
    Ok(KindList::of(kt_scan::kinds_shown(alloc, schema, scan)?))
}
