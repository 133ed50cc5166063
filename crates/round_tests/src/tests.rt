//! Lives of boards with rounds in them, written down as turns. What must come of a turn follows from the
//! rules of commands, cells and rounds.
mod answered;
mod asked;
mod asked_tasks;
mod beside;
mod boards;
mod crashes;
mod ends;
mod failing;
mod full;
mod lives;
mod losses;
mod naming;
mod playing;
mod strays;
mod turns;
mod visits;

use bbs_model::Op;
use boards::told;
use cell_records::JobName;
use cell_rep::{CellAct, Delivery};
use crash_backoff::Moment;
use diego_names::{Instance, Key, Name};
use ends::*;
use lrp_records::{Actual, LrpState, Presence};
use naming::*;
use playing::{Counts, asking};
use std::alloc::Global;
use std::process::Abort;
use std::test::Fail;
use turns::Turn;
use turns::Turn::{Cell, Client, Evacuate, Gone, Loses, Round, RoundLoses};

// Everything that waits on the cell comes up.
const UP: CellAct = CellAct::Up { job: None };
