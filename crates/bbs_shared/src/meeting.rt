//! How one caller learns what another has seen, without a turn.
use crate::shared_board::{BoardPass, SharedBoard};
use disk_trait::Disk;

impl<D: Disk> SharedBoard<D> {
    ghost use Rattle.std.specs.Prelude.{◌≡◌};
    ghost use Rattle.bbs_shared.specs.Passes.{seen_by, IsSame, HearsAll};

    /// From now on the hearer knows that the log has all that the teller has seen. It waits for
    /// nobody and takes no memory.
    pub fn meet(&self, teller: &mut BoardPass<D>, hearer: &mut BoardPass<D>)
        requires teller { teller.old.place.table_id ≡ self.now.desk.table.shared.table_id }
        requires hearer { hearer.old.place.table_id ≡ self.now.desk.table.shared.table_id }
        ensures teller { IsSame teller.old teller.new × (seen_by teller.new ≡ seen_by teller.old) }
        ensures hearer { IsSame hearer.old hearer.new }
        ensures met { HearsAll (seen_by teller.old).seen (seen_by hearer.old) (seen_by hearer.new) }
    {
        self.desk.meet(teller, hearer);
    }
}
