//! The facts of a dump that are modelled otherwise.
ghost use Rattle.std.specs.Prelude.{◌≡◌};
ghost use Rattle.headroom_print.specs.Notes.{notes_of, told_of};

use forecast_records::Notes;

/// The words of a note, and its count.
#[derive(Clone, Copy)]
pub struct Note(pub &'static str, pub u64);

/// All notes in their order. Those of nothing are 0.
pub fn notes_of(notes: &Notes) -> [Note; 7]
    ensures { told_of result ≡ notes_of notes.now }
{
    [
        Note("instances from containers", notes.instances_from_containers),
        Note("optional tags", notes.optional_tags),
        Note("proxy memory", u64::from(notes.proxy_memory)),
        Note("rows of no cell", notes.rows_of_no_cell),
        Note("silent cells", notes.silent_cells),
        Note("strays", notes.strays),
        Note("volume drivers", notes.volume_drivers),
    ]
}
