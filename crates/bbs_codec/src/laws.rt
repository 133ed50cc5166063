//! What holds of every command in bytes.
ghost use Rattle.std.specs.Prelude.{◌≡◌, ◌≤◌, ◌++◌, List, ℕ, length, Ok};
ghost use Rattle.bbs_model.specs.declared.command.Command.{Command as ACommand};
ghost use Rattle.wire_fields.specs.Laws.{IsBytes};
ghost use Rattle.bbs_codec.specs.Command.{FitsCommand, IsReadIn, spelled, reading};

/// A command that was spelled is read back in the versions that may have it, and version 2 may have
/// each.
#[tactic(auto, using(crate::proofs::Rules::laws))]
pub fn commands_are_read_back()
    ensures back { (version : ℕ) (c : ACommand) → FitsCommand c → IsReadIn version c
        → reading version (spelled c) ≡ Ok c }
    ensures each { (c : ACommand) → IsReadIn 2 c }
{}

/// Bytes that are read as a command are its one spelling, in each version that may have it.
#[tactic(auto, using(crate::proofs::Rules::laws))]
pub fn commands_have_one_spelling()
    ensures { (version : ℕ) (bytes : List ℕ) (c : ACommand) → IsBytes bytes
        → reading version bytes ≡ Ok c → (bytes ≡ spelled c) × FitsCommand c × IsReadIn version c }
{}

/// No spelling begins another, so it is known where a command ends.
#[tactic(auto, using(crate::proofs::Rules::laws))]
pub fn no_spelling_begins_another()
    ensures { (a b : ACommand) (x y : List ℕ) → FitsCommand a → FitsCommand b
        → spelled a ++ x ≡ spelled b ++ y → (a ≡ b) × (x ≡ y) }
{}

/// A spelling has at least and at most so many bytes.
#[tactic(auto, using(crate::proofs::Rules::laws))]
pub fn spellings_are_bounded()
    ensures least { (c : ACommand) → FitsCommand c → 7 ≤ length (spelled c) }
    ensures most { (c : ACommand) → FitsCommand c → length (spelled c) ≤ 343 }
{}
