//! Calls and their answers.
use crate::asserts::{are_items, holds};
use crate::closing::Played;
use crate::making::{CALLS, desire, prepared};
use crate::playing::{Called, done, play};
use bbs_model::Item;
use standby_board::{PairFault, PairReply};
use std::test::Fail;

#[test]
fn the_standby_catches_up_after_it_fell_behind(rt: HostRuntime) -> Result<(), Fail> {
    let alloc = rt.alloc();
    let commands = [desire(b"web")?, desire(b"two")?];
    let calls = [
        Called {
            fence: 1,
            command: commands[0],
            end: Err(PairFault::Behind { place: 0 }),
        },
        Called {
            fence: 0,
            command: commands[1],
            end: Ok(PairReply::StaleFence { greatest: 1 }),
        },
        Called {
            fence: 1,
            command: commands[1],
            end: done(1, 1),
        },
    ];
    // The last sync of the standby's first append fails.
    let primary = prepared(alloc, &[])?;
    let standby = prepared(alloc, &[CALLS + 4])?;
    let Some(played) = play(alloc, primary, standby, &calls) else {
        return Err(Fail::from("they are a pair"));
    };
    let Played {
        primary: _,
        standby: _,
        log,
        copied,
        missing,
        ended,
    } = played;
    holds(&rt, ended);
    holds(&rt, missing.is_none());
    are_items(
        &rt,
        &log,
        &[Item::Done(1, commands[0]), Item::Done(1, commands[1])],
    );
    are_items(
        &rt,
        &copied,
        &[
            Item::Doubt(1, commands[0]),
            Item::Done(1, commands[0]),
            Item::Done(1, commands[1]),
        ],
    );
    Ok(())
}
