//! What a job asks for at least. What is free only falls, so a cell that lacks so much lacks it to the end.
ghost use Rattle.std.specs.Prelude.{◌≡◌, IfSome};
ghost use Rattle.auctioneer.specs.Needs.{asks_for, LacksRoom, IsUpTo};

use crate::stand::Stand;
use cell_records::Job;

// In MB.
#[derive(Clone, Copy)]
pub(crate) struct Need {
    pub(crate) memory: u32,
    pub(crate) disk: u32,
}

impl Need {
    // What each job asks for at least.
    pub(crate) const NOTHING: Need = Need { memory: 0, disk: 0 };

    // Whether the job asks for at least so much.
    pub(crate) fn is_asked_by(self, job: &Job) -> bool
        ensures { result ≡ asks_for job.now self }
    {
        self.memory <= job.memory && self.disk <= job.disk
    }

    // If the cell lacks room for the job, as little more as is needed for the cell to lack that too.
    pub(crate) fn raised(self, job: &Job, stand: &Stand) -> Option<Need>
        ensures lacks { IfSome result (λ more. LacksRoom more stand.now) }
        ensures more { IfSome result (IsUpTo self) }
    {
        if stand.free.containers == 0 {
            return Some(self);
        }
        if stand.free.memory < job.memory {
            let memory = self.memory.max(stand.free.memory + 1);
            return Some(Need { memory, ..self });
        }
        if stand.free.disk < job.disk {
            let disk = self.disk.max(stand.free.disk + 1);
            return Some(Need { disk, ..self });
        }
        None
    }
}
