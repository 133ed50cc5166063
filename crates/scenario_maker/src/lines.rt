//! The lines of a scenario, each one object in JSON with its members in byte order, and a newline.
ghost use Rattle.std.specs.Prelude.{◌≡◌, IfOk, string_bytes};
ghost use Rattle.scenario_maker.specs.Lines.{at_line, desire_line, join_line, update_line};

use std::alloc::{AllocError, Global};

/// Begins a phase at this moment.
pub(crate) fn at_line(alloc: Global, at: u32) -> Result<String, AllocError>
    ensures { IfOk result (λ s. string_bytes s ≡ at_line at) }
{
    format!(in alloc; "{{\"at\":{at}}}\n")
}

/// A cell joins, in the zone of this number.
pub(crate) fn join_line(alloc: Global, cell: u32, zone: u32) -> Result<String, AllocError>
    ensures { IfOk result (λ s. string_bytes s ≡ join_line cell zone) }
{
    format!(in alloc;
        "{{\"cell\":\"cell-{cell}\",\"containers\":250,\"disk\":1048576,\"memory\":65536,\
\"op\":\"join\",\"ttl\":1000000,\"zone\":\"z{zone}\"}}\n"
    )
}

/// A process is desired, with so many instances of so much memory each.
pub(crate) fn desire_line(
    alloc: Global,
    process: u32,
    instances: u32,
    memory: u32,
) -> Result<String, AllocError>
    ensures { IfOk result (λ s. string_bytes s ≡ desire_line process instances memory) }
{
    format!(in alloc;
        "{{\"client\":\"gen\",\"disk\":64,\"domain\":\"gen\",\"instances\":{instances},\
\"memory\":{memory},\"op\":\"desire\",\"process\":\"proc-{process}\"}}\n"
    )
}

/// A process is to have so many instances from now on.
pub(crate) fn update_line(alloc: Global, process: u32, instances: u32) -> Result<String, AllocError>
    ensures { IfOk result (λ s. string_bytes s ≡ update_line process instances) }
{
    format!(in alloc;
        "{{\"client\":\"gen\",\"instances\":{instances},\"op\":\"update\",\
\"process\":\"proc-{process}\"}}\n"
    )
}
