//! Stories, and what came of them.
ghost use Rattle.bbs_model.specs.Valid.{IsValid};

use super::turns::{Turn, take};
use bbs_model::{Item, Op, Port, Rows};
use cell_records::Answer;
use cell_rep::CellRep;
use convergence::{Report, strays};
use crash_backoff::Moment;
use diego_names::{Instance, List, Name};
use std::alloc::Global;
use std::test::Fail;

/// What a round reports, in numbers.
#[derive(Clone, Copy, Debug, PartialEq, Eq)]
pub struct Counts {
    pub asked: u32,
    pub own: u64,
    pub lost: u64,
    pub stopped: usize,
    pub unplaced: usize,
    pub refused: usize,
    pub foreign: u64,
}

impl Counts {
    /// Nothing was lost or refused, each job had room, and nobody else did anything.
    pub fn is_complete(&self) -> bool {
        self.lost == 0 && self.refused == 0 && self.unplaced == 0 && self.foreign == 0
    }
}

/// What a complete round counts that asked so many cells, did so many transitions, and stopped nothing.
pub fn asking(asked: u32, own: u64) -> Counts {
    Counts {
        asked,
        own,
        lost: 0,
        stopped: 0,
        unplaced: 0,
        refused: 0,
        foreign: 0,
    }
}

pub fn counts_of(report: &Report) -> Counts {
    Counts {
        asked: report.asked,
        own: report.own,
        lost: report.lost,
        stopped: report.stopped.len(),
        unplaced: report.unplaced.len(),
        refused: report.refused.len(),
        foreign: report.foreign,
    }
}

/// What came of the turns so far.
#[derive(Drop)]
pub struct Course {
    /// What each round counted, in order.
    pub rounds: Vec<Counts>,
    /// The report of the last round, if there was one.
    pub report: Option<Report>,
    /// How long the log was before the last turn.
    pub before: u64,
}

impl Course {
    fn keep(&mut self, report: Report) -> Result<(), Fail> {
        let counts = counts_of(&report);
        self.report = Some(report);
        Ok(self.rounds.push(counts)?)
    }

    // Takes a turn.
    fn go_on<P: Port>(
        &mut self,
        alloc: Global,
        port: &mut P,
        cells: &mut [CellRep],
        now: Moment,
        turn: &Turn,
    ) -> Result<(), Fail> {
        self.before = port.place();
        match take(alloc, port, cells, now, turn) {
            Err(fail) => Err(fail),
            Ok(None) => Ok(()),
            Ok(Some(report)) => self.keep(report),
        }
    }
}

/// What came of a story over a port.
#[derive(Drop)]
pub struct Played {
    pub course: Course,
    /// The rows, and the containers that they leave over, at the end.
    pub rows: Rows,
    pub strays: List<(Name, Instance)>,
}

/// What came of a story, and the log of its board.
#[derive(Drop)]
pub struct Told {
    pub end: Played,
    pub log: Vec<Item>,
}

/// The reps of two cells, of which none has joined.
pub fn reps(alloc: Global) -> Result<Vec<CellRep>, Fail> {
    let mut cells = Vec::new(alloc);
    cells.push(CellRep::new(Name::read(b"c1")?))?;
    cells.push(CellRep::new(Name::read(b"c2")?))?;
    Ok(cells)
}

// Asks a cell, which has an answer if it has joined.
fn ask(alloc: Global, rep: &CellRep, answers: &mut List<Answer>) -> Result<(), Fail> {
    match rep.answer(alloc)? {
        None => Ok(()),
        Some(answer) => Ok(answers.push(answer)?),
    }
}

// The containers that the rows leave over on these cells.
fn left_over(alloc: Global, rows: &Rows, cells: &[CellRep]) -> Result<List<(Name, Instance)>, Fail>
    requires { IsValid rows.now }
{
    let mut answers = List::new(alloc);
    for rep in cells {
        ask(alloc, rep, &mut answers)?;
    }
    Ok(strays(alloc, rows, answers.items())?)
}

// What a port tells in the end, with those containers.
fn end_of<P: Port>(
    alloc: Global,
    port: &mut P,
    cells: &[CellRep],
) -> Result<(Rows, List<(Name, Instance)>), Fail> {
    let rows = port.rows(alloc)?;
    let strays = left_over(alloc, &rows, cells)?;
    Ok((rows, strays))
}

/// Takes turns at these seconds, one after another.
pub fn take_all<P: Port>(
    alloc: Global,
    port: &mut P,
    cells: &mut [CellRep],
    story: &[(u32, Turn)],
) -> Result<Course, Fail> {
    let mut course = Course {
        rounds: Vec::new(alloc),
        report: None,
        before: 0,
    };
    for (now, turn) in story {
        course.go_on(alloc, port, cells, Moment(*now), turn)?;
    }
    Ok(course)
}

// The same, and what the port tells behind them.
fn play_with<P: Port>(
    alloc: Global,
    port: &mut P,
    cells: &mut [CellRep],
    story: &[(u32, Turn)],
) -> Result<Played, Fail> {
    let course = take_all(alloc, port, cells, story)?;
    match end_of(alloc, port, cells) {
        Err(fail) => Err(fail),
        Ok((rows, strays)) => Ok(Played {
            course,
            rows,
            strays,
        }),
    }
}

/// Plays a story over a port and two cells, of which none has joined.
pub fn play<P: Port>(alloc: Global, port: &mut P, story: &[(u32, Turn)]) -> Result<Played, Fail> {
    let mut cells = reps(alloc)?;
    play_with(alloc, port, &mut cells, story)
}

fn op_of(item: &Item) -> Op {
    match item {
        Item::Done(_, command) | Item::Doubt(_, command) => command.op,
    }
}

impl Told {
    /// What each round counted, in order.
    pub fn rounds(&self) -> &[Counts] {
        self.end.course.rounds.as_slice()
    }

    /// What the last turn did.
    pub fn last(&self, alloc: Global) -> Result<Vec<Op>, Fail> {
        let mut ops = Vec::new(alloc);
        for item in self.log.iter().skip(self.end.course.before as usize) {
            ops.push(op_of(item))?;
        }
        Ok(ops)
    }
    /// The report of the last round.
    pub fn report(&self) -> Result<&Report, Fail> {
        match &self.end.course.report {
            None => Err(Fail::from("there was a round")),
            Some(report) => Ok(report),
        }
    }
}
