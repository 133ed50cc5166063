//! Rounds that lose something, and the rounds behind them.
use super::*;

// A round that loses that delivery, and two behind it that lose nothing, where one process of one instance
// is wanted. A round delivers a question to the cell, a start, and then the start's call of the board.
fn lost_once(
    rt: &impl Abort,
    alloc: Global,
    number: u64,
    end: Delivery,
    rounds: &[Counts],
) -> Result<(), Fail> {
    let names = &read_names()?;
    let story = [
        (0, Cell(0, join(names.z1, 600))),
        (0, Client(desire(names.web, 1))),
        (1, RoundLoses(number, end)),
        (2, Round),
        (3, Round),
    ];
    rounds_count(rt, alloc, &story, &[], rounds)
}

fn losing_one(own: u64) -> Counts {
    Counts {
        lost: 1,
        ..asking(1, own)
    }
}

#[test]
fn a_round_that_lost_nothing_leaves_nothing_to_do(rt: HostRuntime) -> Result<(), Fail> {
    let alloc = rt.alloc();
    let rounds = [asking(1, 2), asking(1, 0), asking(1, 0)];
    lost_once(&rt, alloc, 4, Delivery::CallLost, &rounds)
}

#[test]
fn a_cell_whose_question_was_lost_gets_no_work_in_that_round(rt: HostRuntime) -> Result<(), Fail> {
    let alloc = rt.alloc();
    for end in [Delivery::CallLost, Delivery::ReplyLost] {
        // The instance is made, and told that there is no room.
        let first = Counts {
            unplaced: 1,
            ..losing_one(2)
        };
        lost_once(&rt, alloc, 1, end, &[first, asking(1, 1), asking(1, 0)])?;
    }
    Ok(())
}

#[test]
fn a_start_that_was_lost_is_made_in_the_next_round(rt: HostRuntime) -> Result<(), Fail> {
    let alloc = rt.alloc();
    for end in [Delivery::CallLost, Delivery::ReplyLost] {
        lost_once(
            &rt,
            alloc,
            2,
            end,
            &[losing_one(1), asking(1, 1), asking(1, 0)],
        )?;
    }
    Ok(())
}

#[test]
fn a_claim_that_was_lost_leaves_a_container_to_be_stopped(rt: HostRuntime) -> Result<(), Fail> {
    let alloc = rt.alloc();
    let second = Counts {
        stopped: 1,
        ..asking(1, 1)
    };
    let rounds = [losing_one(1), second, asking(1, 0)];
    lost_once(&rt, alloc, 3, Delivery::CallLost, &rounds)
}

#[test]
fn a_claim_whose_reply_was_lost_stands(rt: HostRuntime) -> Result<(), Fail> {
    let alloc = rt.alloc();
    let rounds = [losing_one(2), asking(1, 0), asking(1, 0)];
    lost_once(&rt, alloc, 3, Delivery::ReplyLost, &rounds)
}

// A container whose claim was lost, a round that loses its stop so, and two rounds more.
fn stop_lost(names: &Names, end: Delivery) -> [(u32, Turn); 5] {
    [
        (0, Cell(0, join(names.z1, 600))),
        (
            1,
            Loses(0, take(JobName::Lrp(names.web(0))), Delivery::CallLost),
        ),
        (2, RoundLoses(2, end)),
        (3, Round),
        (4, Round),
    ]
}

#[test]
fn a_stop_that_was_lost_is_made_in_the_next_round(rt: HostRuntime) -> Result<(), Fail> {
    let (alloc, names) = (rt.alloc(), &read_names()?);
    let second = Counts {
        stopped: 1,
        ..asking(1, 0)
    };
    let rounds = [losing_one(0), second, asking(1, 0)];
    for end in [Delivery::CallLost, Delivery::ReplyLost] {
        rounds_count(&rt, alloc, &stop_lost(names, end), &[], &rounds)?;
    }
    Ok(())
}
