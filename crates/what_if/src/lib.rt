//! What happens to a foundation where cells are lost: the site that a dump tells, plans of losses, and answers as data.
#![tactic(auto)]

mod baseline;
mod cells;
mod containers;
mod groups;
mod kept_cells;
mod key_sets;
mod losing;
mod placing;
mod plan;
mod planning;
mod proxies;
mod silence;
mod site;
mod site_of;
mod standing;
mod states_in_order;
mod tables;
mod taken;
mod verdicts;
mod waiting;
mod wanting;

pub use baseline::{Baseline, baseline_of};
pub use cells::{is_lost, is_open, open_cells, set_of};
pub use containers::key_of;
pub use key_sets::key_set;
pub use losing::plan_with;
pub use placing::unplaced_at;
pub use plan::Plan;
pub use planning::{Scene, held_jobs, holders_of, plan_in, plan_of};
pub use proxies::{proxy_of, with_proxy};
pub use silence::{has_started, silent_of, told_cells};
pub use site::{Site, Stay, Wanted};
pub use site_of::is_some_row;
pub use standing::{Holders, has_ended, instance_in, silent_stays, stay_at, stays};
pub use tables::table_of;
pub use taken::taken_by;
pub use verdicts::verdict_of;
pub use waiting::{does_wait, held_before};
pub use wanting::wanted_of;
