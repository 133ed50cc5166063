//! What has room on a cell comes up.
ghost use Rattle.std.specs.Prelude.{◌≡◌};
ghost use Rattle.container_store.specs.Changes.{running_each};

use crate::store::Store;
use cell_records::JobName;

impl Store {
    /// Each RESERVED container of the job that is named runs, or each where none is named. It looks
    /// at those of the job alone.
    pub fn run_each(&mut self, job: &Option<JobName>)
        ensures { self.new ≡ running_each self.old job.now }
    {
        self.holds();
        let mut after = 0;
        while let Some(container) = self.next_in(job, after) {
            let instance = container.instance;
            after = instance.number;
            self.holds();
            let _ = self.run(&instance);
        }
    }
}
