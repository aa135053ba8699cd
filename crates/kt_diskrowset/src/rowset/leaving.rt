//! A disk rowset that leaves a tablet.
use super::DiskRowSet;
use super::rewriting::empty_all;
use kt_pool::Pool;

impl DiskRowSet {
    ghost use Rattle.kt_diskrowset.specs.Gone.{HasGone};
    ghost use Rattle.kt_diskrowset.specs.Rowset.{IsStore};

    /// It leaves, and its DeltaMemStores give their cells back.
    pub fn leave(self, pool: &mut Pool)
        requires { IsStore self pool.old }
        ensures { HasGone self pool.old pool.new }
    {
        let mut rowset = self;
        empty_all(&mut rowset.frozen, pool);
        rowset.active.empty_into(pool);
    }
}
