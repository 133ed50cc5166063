// A system in memory, for tests of what stands on its calls.
ghost use Rattle.std.specs.Prelude.{◌≡◌, ◌<◌, ◌≤◌, ◌^◌, [], length, IfOk, OnOk};

use crate::{CallError, Calls, Contents, Mishap, MishapKind, Record};
use disk_trait::Area;
use std::marker::PhantomData;

/// Two files in memory. Each call goes wrong as the first of the mishaps says that names its
/// number. Nothing is proved of its answers but what each system's keep to.
#[derive(Drop)]
pub struct MemoryCalls<F: Contents> {
    a: Vec<u8>,
    b: Vec<u8>,
    mishaps: Vec<Mishap>,
    count: u64,
    noted: Record,
    contents: PhantomData<F>,
}

impl<F: Contents> MemoryCalls<F> {
    /// Files of these bytes.
    pub fn new(a: Vec<u8>, b: Vec<u8>, mishaps: Vec<Mishap>) -> MemoryCalls<F>
        ensures { ⟦<MemoryCalls<F> as Calls>⟧.history result ≡ [] }
    {
        MemoryCalls {
            a,
            b,
            mishaps,
            count: 0,
            noted: Record::new(),
            contents: PhantomData,
        }
    }

    /// What a file holds.
    pub fn bytes(&self, area: Area) -> &[u8] {
        match area {
            Area::A => self.a.as_slice(),
            Area::B => self.b.as_slice(),
        }
    }

    /// How many calls of the system were made.
    pub fn count(&self) -> u64 {
        self.count
    }
}

fn mishap_of(mishaps: &[Mishap], number: u64) -> Option<MishapKind> {
    for mishap in mishaps {
        if mishap.from <= number && number <= mishap.to {
            return Some(mishap.kind);
        }
    }
    None
}

/// The mishap of the next call, which is refused or interrupted there and then.
fn next(count: &mut u64, mishaps: &[Mishap]) -> Result<Option<MishapKind>, CallError> {
    *count = count.saturating_add(1);
    match mishap_of(mishaps, *count) {
        Some(MishapKind::Interrupted) => Err(CallError::Interrupted),
        Some(MishapKind::Refused) => Err(CallError::Refused),
        kind => Ok(kind),
    }
}

fn measure(file: &[u8], kind: Option<MishapKind>) -> u64 {
    match kind {
        Some(MishapKind::Lie) => file.len().saturating_sub(1) as u64,
        _ => file.len() as u64,
    }
}

fn read(file: &[u8], at: u64, room: &mut [u8], kind: Option<MishapKind>) -> Result<usize, CallError>
    requires { 0 < length room.old }
    ensures { IfOk result (λ n. (n ≤ length room.old) × (at < 2 ^ 63)) }
{
    if at > i64::MAX as u64 {
        return Err(CallError::Refused);
    }
    let from = file.len().min(at as usize);
    let most = if kind == Some(MishapKind::Short) {
        1
    } else {
        room.len()
    };
    let count = most.min(file.len() - from);
    room[..count].copy_from_slice(&file[from..from + count]);
    if kind == Some(MishapKind::Lie) {
        room[0] ^= 1;
    }
    Ok(count)
}

fn write(
    file: &mut Vec<u8>,
    at: u64,
    bytes: &[u8],
    kind: Option<MishapKind>,
) -> Result<usize, CallError>
    requires { 0 < length bytes.now }
    ensures { IfOk result (λ n. (0 < n) × (n ≤ length bytes.now) × (at < 2 ^ 63)) }
{
    if at > file.len() as u64 {
        return Err(CallError::Refused);
    }
    if kind == Some(MishapKind::Lie) {
        return Ok(bytes.len());
    }
    let count = if kind == Some(MishapKind::Short) {
        1
    } else {
        bytes.len()
    };
    lay(file, at as usize, &bytes[..count])?;
    Ok(count)
}

fn lay(file: &mut Vec<u8>, at: usize, bytes: &[u8]) -> Result<(), CallError>
    requires { at ≤ length file.old.items }
{
    let kept = bytes.len().min(file.len() - at);
    if file.extend_from_slice(&bytes[kept..]).is_err() {
        return Err(CallError::Refused);
    }
    for (i, byte) in bytes[..kept].iter().enumerate() {
        if let Some(place) = file.get_mut(at.saturating_add(i)) {
            *place = *byte;
        }
    }
    Ok(())
}

impl<F: Contents> Calls for MemoryCalls<F> {
    ghost first = { F.Contents.first };

    ghost history = { λ system. system.noted.calls };

    fn begin(&mut self) {
        self.noted.began();
    }

    fn announce(&mut self, area: Area, at: u64, len: usize) {
        self.noted.means(area, at, len);
    }

    fn len(&mut self, area: Area) -> Result<u64, CallError> {
        let answer = match next(&mut self.count, &self.mishaps) {
            Ok(kind) => Ok(measure(self.bytes(area), kind)),
            Err(error) => Err(error),
        };
        self.noted.measured(area, &answer);
        answer
    }

    fn read_some(&mut self, area: Area, at: u64, room: &mut [u8]) -> Result<usize, CallError> {
        let answer = match next(&mut self.count, &self.mishaps) {
            Ok(kind) => read(self.bytes(area), at, room, kind),
            Err(error) => Err(error),
        };
        self.noted.read(area, at, &answer, room);
        answer
    }

    fn write_some(&mut self, area: Area, at: u64, bytes: &[u8]) -> Result<usize, CallError> {
        let answer = match (next(&mut self.count, &self.mishaps), area) {
            (Ok(kind), Area::A) => write(&mut self.a, at, bytes, kind),
            (Ok(kind), Area::B) => write(&mut self.b, at, bytes, kind),
            (Err(error), _) => Err(error),
        };
        self.noted.written(area, at, &answer, bytes);
        answer
    }

    fn sync_name(&mut self, area: Area) -> Result<(), CallError> {
        let answer = done(next(&mut self.count, &self.mishaps));
        self.noted.named(area, answer.is_ok());
        answer
    }

    fn sync_data(&mut self, area: Area) -> Result<(), CallError> {
        let answer = done(next(&mut self.count, &self.mishaps));
        self.noted.flushed(area, answer.is_ok());
        answer
    }
}

fn done(answer: Result<Option<MishapKind>, CallError>) -> Result<(), CallError> {
    match answer {
        Ok(_) => Ok(()),
        Err(error) => Err(error),
    }
}
