//! The operations of commands in bytes.

mod cells;
mod domains;
mod kind;
mod lrps;
mod processes;
mod suspicions;
mod tasks;
mod writing;

pub use cells::{read_cell_end, read_cell_lease};
pub use domains::read_domain_command;
pub use kind::kind_of;
pub use lrps::{read_lrp_change, read_lrp_loss, read_lrp_work};
pub use processes::read_process_command;
pub use suspicions::read_suspicion;
pub use tasks::{read_task_change, read_task_end, read_task_work};
pub use writing::put_op;
