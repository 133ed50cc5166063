//! One cell, one instance of a process and one task, and the turns that are about them.
use crate::Turn;
use bbs_model::Op;
use cell_records::{Amounts, Job, JobName};
use cell_rep::CellAct;
use diego_names::{Instance, Key, Name};
use lrp_records::Desired;
use std::test::Fail;

/// What the cell has in all, in MB and in containers.
pub const TOTALS: Amounts = Amounts {
    memory: 1024,
    disk: 4096,
    containers: 10,
};

/// The seconds for which the cell's lease holds.
pub const TTL: u32 = 600;

/// Whom the tests are about.
#[derive(Clone, Copy)]
pub struct Names {
    pub cell: Name,
    pub web: Name,
    pub job: Name,
}

impl Names {
    pub fn read() -> Result<Names, Fail> {
        Ok(Names {
            cell: Name::read(b"c1")?,
            web: Name::read(b"web")?,
            job: Name::read(b"job")?,
        })
    }

    /// The first instance of the process.
    pub fn key(&self) -> Key {
        Key {
            process: self.web,
            index: 0,
        }
    }

    pub fn lrp(&self) -> JobName {
        JobName::Lrp(self.key())
    }

    pub fn task(&self) -> JobName {
        JobName::Task(self.job)
    }

    /// The cell joins.
    pub fn join(&self) -> Turn {
        Turn::Act(CellAct::Join {
            zone: self.cell,
            tag: None,
            totals: TOTALS,
            ttl: TTL,
        })
    }

    /// The cell's name joins, and the cell itself did not do it.
    pub fn join_elsewhere(&self) -> Turn {
        Turn::Board(Op::Join {
            cell: self.cell,
            zone: self.cell,
            tag: None,
            totals: TOTALS,
            ttl: TTL,
        })
    }

    /// A client wants one instance of the process.
    pub fn desire(&self) -> Turn {
        let desired = Desired {
            process: self.web,
            domain: self.web,
            instances: 1,
            memory: 64,
            disk: 128,
            tag: None,
            route: None,
            port: 8080,
        };
        Turn::Board(Op::Desire { desired })
    }

    pub fn make(&self) -> Turn {
        Turn::Board(Op::Make { key: self.key() })
    }

    /// A client wants the task to run.
    pub fn new_task(&self) -> Turn {
        Turn::Board(Op::NewTask {
            name: self.job,
            memory: 64,
            disk: 128,
            tag: None,
        })
    }

    /// The cell has joined, and the board has an instance and a task that wait. Each turn is a transition.
    pub fn begin(&self) -> [Turn; 4] {
        [self.join(), self.desire(), self.make(), self.new_task()]
    }

    /// Somebody else drops the row of the instance, which this container has.
    pub fn remove(&self, instance: Instance) -> Turn {
        Turn::Board(Op::Remove {
            key: self.key(),
            instance: Some(instance),
        })
    }

    /// A client gives the task up.
    pub fn cancel(&self) -> Turn {
        Turn::Board(Op::CancelTask { name: self.job })
    }

    pub fn run(&self) -> Turn {
        Turn::Act(CellAct::Run {
            key: self.key(),
            memory: 64,
            disk: 128,
        })
    }

    pub fn crash(&self) -> Turn {
        Turn::Act(CellAct::Crash { key: self.key() })
    }

    pub fn finish(&self, failed: bool) -> Turn {
        Turn::Act(CellAct::Finish {
            name: self.job,
            failed,
        })
    }
}

pub fn claim(job: JobName) -> Turn {
    Turn::Act(CellAct::Claim {
        job,
        memory: 64,
        disk: 128,
    })
}

/// A round starts a job on the cell.
pub fn start(job: JobName) -> Turn {
    Turn::Start(Job {
        job,
        memory: 64,
        disk: 128,
        tag: None,
    })
}

pub fn renew(ttl: u32) -> Turn {
    Turn::Act(CellAct::Renew { ttl })
}

/// Whatever is RESERVED comes up.
pub fn up() -> Turn {
    Turn::Act(CellAct::Up { job: None })
}

pub fn settle() -> Turn {
    Turn::Act(CellAct::Settle)
}

pub fn die() -> Turn {
    Turn::Act(CellAct::Die)
}
