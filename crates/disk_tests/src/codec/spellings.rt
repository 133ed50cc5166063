//! The bytes of each kind of command.
use super::{INSTANCE, spells};
use bbs_model::Op;
use cell_records::Amounts;
use diego_names::{Key, Name};
use lrp_records::Desired;
use std::test::Fail;

fn web_1(process: Name) -> Key {
    Key { process, index: 1 }
}

#[test]
fn operations_on_processes_are_spelled_as_their_table_says(rt: HostRuntime) -> Result<(), Fail> {
    let process = Name::read(b"web")?;
    let desired = Desired {
        process,
        domain: Name::read(b"d")?,
        instances: 2,
        memory: 256,
        disk: 64,
        tag: Some(Name::read(b"ssd")?),
        route: None,
        port: 8080,
    };
    let row = b"\x01\0\0\0\x09\x03web\x01d\0\0\0\x02\0\0\x01\0\0\0\0\x40\x03ssd\0\x1f\x90";
    spells(&rt, Op::Desire { desired }, row);
    let update = Op::Update {
        process,
        instances: 3,
        route: Some(Name::read(b"r")?),
        port: 80,
    };
    spells(&rt, update, b"\x02\0\0\0\x09\x03web\0\0\0\x03\x01r\0\x50");
    spells(&rt, Op::Undesire { process }, b"\x03\0\0\0\x09\x03web");
    Ok(())
}

#[test]
fn operations_on_keys_are_spelled_as_their_table_says(rt: HostRuntime) -> Result<(), Fail> {
    let web = Name::read(b"web")?;
    let kinds = [
        (4, Op::Make { key: web_1(web) }),
        (9, Op::Restart { key: web_1(web) }),
        (11, Op::PlaceFail { key: web_1(web) }),
    ];
    for (kind, op) in kinds {
        let mut bytes = *b"\0\0\0\0\x09\x03web\0\0\0\x01";
        bytes[0] = kind;
        spells(&rt, op, &bytes);
    }
    let (none, some) = (None, Some(INSTANCE));
    let removed = Op::Remove {
        key: web_1(web),
        instance: none,
    };
    spells(&rt, removed, b"\x0a\0\0\0\x09\x03web\0\0\0\x01\0");
    let removed = Op::Remove {
        key: web_1(web),
        instance: some,
    };
    let bytes = b"\x0a\0\0\0\x09\x03web\0\0\0\x01\x01\0\0\0\0\0\0\x01\x02\0\0\0\x09";
    spells(&rt, removed, bytes);
    Ok(())
}

#[test]
fn operations_of_cells_on_keys_are_spelled_as_their_table_says(
    rt: HostRuntime,
) -> Result<(), Fail> {
    let (web, cell, instance) = (Name::read(b"web")?, Name::read(b"c1")?, INSTANCE);
    let claim = Op::Claim {
        key: web_1(web),
        instance,
        cell,
    };
    let start = Op::Start {
        key: web_1(web),
        instance,
        cell,
    };
    for (kind, op) in [(5, claim), (6, start)] {
        let mut bytes = *b"\0\0\0\0\x09\x03web\0\0\0\x01\0\0\0\0\0\0\x01\x02\0\0\0\x09\x02c1";
        bytes[0] = kind;
        spells(&rt, op, &bytes);
    }
    let kinds = [
        (
            7,
            Op::Crash {
                key: web_1(web),
                instance,
            },
        ),
        (
            8,
            Op::Unclaim {
                key: web_1(web),
                instance,
            },
        ),
        (
            12,
            Op::Evacuate {
                key: web_1(web),
                instance,
            },
        ),
        (
            13,
            Op::DropEvacuating {
                key: web_1(web),
                instance,
            },
        ),
        (
            28,
            Op::Suspect {
                key: web_1(web),
                instance,
            },
        ),
        (
            29,
            Op::DropSuspect {
                key: web_1(web),
                instance,
            },
        ),
    ];
    for (kind, op) in kinds {
        let mut bytes = *b"\0\0\0\0\x09\x03web\0\0\0\x01\0\0\0\0\0\0\x01\x02\0\0\0\x09";
        bytes[0] = kind;
        spells(&rt, op, &bytes);
    }
    Ok(())
}

#[test]
fn operations_on_tasks_are_spelled_as_their_table_says(rt: HostRuntime) -> Result<(), Fail> {
    let (name, cell, instance) = (Name::read(b"job")?, Name::read(b"c1")?, INSTANCE);
    let (memory, disk, tag, failed) = (32, 64, None, true);
    let new = Op::NewTask {
        name,
        memory,
        disk,
        tag,
    };
    spells(&rt, new, b"\x0e\0\0\0\x09\x03job\0\0\0\x20\0\0\0\x40\0");
    let start = Op::StartTask {
        name,
        instance,
        cell,
    };
    let bytes = b"\x0f\0\0\0\x09\x03job\0\0\0\0\0\0\x01\x02\0\0\0\x09\x02c1";
    spells(&rt, start, bytes);
    let complete = Op::CompleteTask {
        name,
        instance,
        failed,
    };
    let bytes = b"\x10\0\0\0\x09\x03job\0\0\0\0\0\0\x01\x02\0\0\0\x09\x01";
    spells(&rt, complete, bytes);
    let kinds = [
        (17, Op::CancelTask { name }),
        (18, Op::ResolveTask { name }),
        (19, Op::DeleteTask { name }),
        (20, Op::KickTask { name }),
        (21, Op::ExpireTask { name }),
    ];
    for (kind, op) in kinds {
        let mut bytes = *b"\0\0\0\0\x09\x03job";
        bytes[0] = kind;
        spells(&rt, op, &bytes);
    }
    Ok(())
}

#[test]
fn operations_on_cells_are_spelled_as_their_table_says(rt: HostRuntime) -> Result<(), Fail> {
    let cell = Name::read(b"c1")?;
    let join = Op::Join {
        cell,
        zone: Name::read(b"z1")?,
        tag: None,
        totals: Amounts {
            memory: 1024,
            disk: 2048,
            containers: 50,
        },
        ttl: 60,
    };
    let bytes = b"\x16\0\0\0\x09\x02c1\x02z1\0\0\0\x04\0\0\0\x08\0\0\0\0\x32\0\0\0\x3c";
    spells(&rt, join, bytes);
    let (epoch, ttl) = (258, 60);
    let renew = Op::Renew { cell, epoch, ttl };
    let bytes = b"\x17\0\0\0\x09\x02c1\0\0\0\0\0\0\x01\x02\0\0\0\x3c";
    spells(&rt, renew, bytes);
    let drain = Op::Drain { cell, epoch };
    spells(&rt, drain, b"\x18\0\0\0\x09\x02c1\0\0\0\0\0\0\x01\x02");
    spells(&rt, Op::Vanish { cell }, b"\x19\0\0\0\x09\x02c1");
    Ok(())
}

#[test]
fn operations_on_domains_are_spelled_as_their_table_says(rt: HostRuntime) -> Result<(), Fail> {
    let domain = Name::read(b"d1")?;
    let fresh = Op::Fresh { domain, ttl: 60 };
    spells(&rt, fresh, b"\x1a\0\0\0\x09\x02d1\0\0\0\x3c");
    let for_ever = Op::Fresh { domain, ttl: 0 };
    spells(&rt, for_ever, b"\x1a\0\0\0\x09\x02d1\0\0\0\0");
    spells(&rt, Op::Forget { domain }, b"\x1b\0\0\0\x09\x02d1");
    Ok(())
}
