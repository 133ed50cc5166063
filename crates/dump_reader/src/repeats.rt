//! Whether something is named twice in one line.
ghost use Rattle.std.specs.Prelude.{◌≡◌, [], IfOk};
ghost use Rattle.dump_reader.specs.Lines.{is_same_instance, is_same_name, repeats};
ghost use Rattle.dump_reader.specs.Names.{instances_on};

use crate::names::{Instances, Names};
use diego_names::{Key, Name, OutOfMemory};
use dump_lines::CellState;
use std::alloc::Global;

/// Whether an instance has two containers on the cell.
pub(crate) fn has_instance_twice(alloc: Global, state: &CellState) -> Result<bool, OutOfMemory>
    ensures { IfOk result (λ is. is ≡ repeats is_same_instance [] (instances_on state.now)) }
{
    let mut before = Instances::new(alloc);
    let instances = state.instances.items();
    for instance in instances {
        let key = Key {
            process: instance.process,
            index: instance.index,
        };
        if !before.add(key)? {
            return Ok(true);
        }
    }
    Ok(false)
}

/// Whether a name is among those before it.
pub(crate) fn has_name_twice(alloc: Global, names: &[Name]) -> Result<bool, OutOfMemory>
    ensures { IfOk result (λ is. is ≡ repeats is_same_name [] names.now) }
{
    let mut before = Names::new(alloc);
    for name in names {
        if !before.add(*name)? {
            return Ok(true);
        }
    }
    Ok(false)
}
