//! The script that a source gives.
ghost use Rattle.std.specs.Prelude.{IfOk};
ghost use Rattle.byte_ports.specs.Cause.{HasCause};
ghost use Rattle.program_ends.specs.Reading.{ReadsAs, is_unread};
ghost use Rattle.scenario_reader.specs.Accepted.{script_of};
ghost use Rattle.scenario_reader.specs.Facts.{IsScript};
ghost use Rattle.pair_top.specs.Reading.{ReadsPair, is_unread_pair};

use crate::ending::PairEnding;
use byte_ports::Source;
use pair_lines::first_other;
use program_ends::{Ending, or_ending, read_bytes};
use scenario_lines::Script;
use scenario_reader::read_script;
use std::alloc::Global;

/// The scenario that the source gives, or how the program ends that has none.
fn read_scenario<S: Source>(alloc: Global, source: &mut S) -> Result<Script, Ending>
    ensures reads { ReadsAs script_of result (S.left source.old) (S.left source.new) }
    ensures facts { IfOk result IsScript }
    ensures cause { HasCause (is_unread result) (S.faults source.old) (S.faults source.new) }
{
    match read_bytes(alloc, source) {
        Ok(bytes) => or_ending(read_script(alloc, &bytes)),
        Err(ending) => Err(ending),
    }
}

/// The script for a pair that the source gives, or how the program ends that has none.
pub(crate) fn read<S: Source>(alloc: Global, source: &mut S) -> Result<Script, PairEnding>
    ensures reads { ReadsPair result (S.left source.old) (S.left source.new) }
    ensures facts { IfOk result IsScript }
    ensures cause { HasCause (is_unread_pair result) (S.faults source.old) (S.faults source.new) }
{
    match read_scenario(alloc, source) {
        Ok(script) => match first_other(&script) {
            None => Ok(script),
            Some(line) => Err(PairEnding::OtherLine { line }),
        },
        Err(ending) => Err(PairEnding::Run(ending)),
    }
}
