// The notes of a record, one for each kind of call.
ghost use Rattle.std.specs.Prelude.{◌≡◌, ◌≤◌, true, false, [], ◌∷◌, length, take, IfOk, MatchResult};
ghost use Rattle.file_calls.specs.Call.{began, means, measured, read, written, named, flushed};
ghost use Rattle.file_calls.specs.Note.{area_of};

use crate::{CallError, Record};
use disk_trait::Area;

const BEGAN: u64 = 0;

const MEANS: u64 = 1;

const MEASURED: u64 = 2;

const READ: u64 = 3;

const WRITTEN: u64 = 4;

const NAMED: u64 = 5;

const FLUSHED: u64 = 6;

fn number(area: Area) -> u64
    ensures { area_of result ≡ area }
{
    match area {
        Area::A => 0,
        Area::B => 1,
    }
}

impl Record {
    /// A device call begins.
    pub fn began(&mut self)
        ensures { self.new.calls ≡ began ∷ self.old.calls }
    {
        self.note(&[BEGAN], &[]);
    }

    /// The range that this device call is going to write.
    pub fn means(&mut self, area: Area, at: u64, len: usize)
        ensures { self.new.calls ≡ means area at len ∷ self.old.calls }
    {
        self.note(&[MEANS, number(area), 1, at, len as u64], &[]);
    }

    /// The length of a file, or that it wasn't told.
    pub fn measured(&mut self, area: Area, answer: &Result<u64, CallError>)
        ensures { MatchResult answer.now
            (λ n. self.new.calls ≡ measured area true n ∷ self.old.calls)
            (λ _. self.new.calls ≡ measured area false 0 ∷ self.old.calls) }
    {
        match answer {
            Ok(len) => self.note(&[MEASURED, number(area), 1, 0, *len], &[]),
            Err(_) => self.note(&[MEASURED, number(area), 0, 0, 0], &[]),
        }
    }

    /// The bytes at the front of the room that a read gave, or that it was refused.
    pub fn read(&mut self, area: Area, at: u64, answer: &Result<usize, CallError>, room: &[u8])
        requires { IfOk answer.now (λ n. n ≤ length room.now) }
        ensures { MatchResult answer.now
            (λ n. self.new.calls ≡ read area at true (take n room.now) ∷ self.old.calls)
            (λ _. self.new.calls ≡ read area at false [] ∷ self.old.calls) }
    {
        match answer {
            Ok(count) => self.note(&[READ, number(area), 1, at], &room[..*count]),
            Err(_) => self.note(&[READ, number(area), 0, at], &[]),
        }
    }

    /// The front of the bytes that a write took, or that it was refused.
    pub fn written(&mut self, area: Area, at: u64, answer: &Result<usize, CallError>, bytes: &[u8])
        requires { IfOk answer.now (λ n. n ≤ length bytes.now) }
        ensures { MatchResult answer.now
            (λ n. self.new.calls ≡ written area at true (take n bytes.now) ∷ self.old.calls)
            (λ _. self.new.calls ≡ written area at false [] ∷ self.old.calls) }
    {
        match answer {
            Ok(count) => self.note(&[WRITTEN, number(area), 1, at], &bytes[..*count]),
            Err(_) => self.note(&[WRITTEN, number(area), 0, at], &[]),
        }
    }

    /// A sync of the folder that has the file's name, and whether it was done.
    pub fn named(&mut self, area: Area, done: bool)
        ensures { self.new.calls ≡ named area done ∷ self.old.calls }
    {
        self.note(&[NAMED, number(area), u64::from(done)], &[]);
    }

    /// A sync of what the file holds, and whether it was done.
    pub fn flushed(&mut self, area: Area, done: bool)
        ensures { self.new.calls ≡ flushed area done ∷ self.old.calls }
    {
        self.note(&[FLUSHED, number(area), u64::from(done)], &[]);
    }
}
