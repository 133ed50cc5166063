//! Two calls over any port.
ghost use Rattle.std.specs.Prelude.{◌≡◌};
ghost use Rattle.plain_step.specs.Plain.{AreCalled};

use bbs_model::{CallFault, Command, Port, Reply};

/// Does one command, and then another. Others may do items before each of them.
pub fn call_twice<P: Port>(
    port: &mut P,
    first: Command,
    second: Command,
) -> (Result<Reply, CallFault>, Result<Reply, CallFault>)
    ensures keeps { P.keeps port.old port.new }
    ensures number { P.number port.new ≡ P.number port.old }
    ensures called { AreCalled (P.number port.old) (P.view port.old) first second
        result.0 result.1 (P.view port.new) }
{
    let one = port.call(first);
    let other = port.call(second);
    (one, other)
}
