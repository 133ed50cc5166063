//! What came of the calls so far.
ghost use Rattle.std.specs.Prelude.{◌≡◌, ◌≤◌, ◌++◌, ◌+◌, [], ◌∷◌, length, OnOk, vec_len, vec_capacity};
ghost use Rattle.pair_runs.specs.Accounts.{acknowledged_by, acknowledged_from, added_by, is_ok, items_in, items_of, outcome_of};

use bbs_model::{Item, Reply};
use diego_names::OutOfMemory;
use pair_lines::{PairAnswered, PairEnded};
use standby_board::{PairFault, PairReply};
use std::alloc::Global;
use std::marker::Model;

/// What came of the calls so far: the answers, the items that they added to the log, and where in the log
/// those items stand that were acknowledged.
#[derive(Drop)]
pub struct Account {
    answers: Vec<PairAnswered>,
    log: Vec<Item>,
    acknowledged: Vec<u64>,
}

/// The lists of an account.
pub struct AccountLists {
    /// The calls in order, and how each ended.
    pub answers: Vec<PairAnswered>,
    /// The items of the calls.
    pub log: Vec<Item>,
    /// The places in `log` of the items that were acknowledged.
    pub acknowledged: Vec<u64>,
}

impl Model for Account {
    ghost use Rattle.std.specs.Prelude.{◌-◌, min, vec_len, vec_capacity};
    ghost use Rattle.pair_runs.specs.Accounts.{AccountView, AreLists};

    ghost Value = { AccountView };

    ghost view = { λ a. record {
      answers = a.answers.items;
      room = min (vec_capacity a.answers - vec_len a.answers)
          (min (vec_capacity a.log - vec_len a.log)
          (vec_capacity a.acknowledged - vec_len a.acknowledged));
    } };

    ghost invariant = { λ a. AreLists a.answers.items a.log.items a.acknowledged.items };
}

impl Account {
    /// The account of no call. It takes no memory.
    pub fn new(alloc: Global) -> Account
        ensures { result.answers ≡ [] }
    {
        Account {
            answers: Vec::new(alloc),
            log: Vec::new(alloc),
            acknowledged: Vec::new(alloc),
        }
    }

    /// Makes room for one call more. It fails only for want of memory.
    pub(crate) fn reserve(&mut self) -> Result<(), OutOfMemory>
        ensures stays { self.new.answers ≡ self.old.answers }
        ensures room { OnOk result (1 ≤ self.new.room) }
    {
        self.answers.reserve(1)?;
        self.log.reserve(1)?;
        self.acknowledged.reserve(1)?;
        Ok(())
    }

    /// Adds an answer, for which there is room, with its item.
    pub(crate) fn add(&mut self, answered: &PairAnswered)
        requires { 1 ≤ self.old.room }
        ensures { self.new.answers ≡ self.old.answers ++ answered.now ∷ [] }
    {
        let place = self.log.len() as u64;
        add_item(&mut self.log, answered);
        add_place(&mut self.acknowledged, place, &answered.end);
        add_in_room(&mut self.answers, *answered);
    }

    /// The answers, in the order of the calls.
    pub fn answers(&self) -> &[PairAnswered]
        ensures { result.now ≡ self.now.answers }
    {
        &self.answers
    }

    /// The items of the calls.
    pub fn log(&self) -> &[Item]
        ensures { result.now ≡ items_in self.now.answers }
    {
        &self.log
    }

    /// How many transitions were acknowledged.
    pub fn acknowledged(&self) -> u64
        ensures { result ≡ length (acknowledged_from 0 self.now.answers) }
    {
        self.acknowledged.len() as u64
    }

    /// All lists.
    pub fn into_lists(self) -> AccountLists
        ensures answers { result.answers.items ≡ self.answers }
        ensures log { result.log.items ≡ items_in self.answers }
        ensures acknowledged { result.acknowledged.items ≡ acknowledged_from 0 self.answers }
    {
        let Account {
            answers,
            log,
            acknowledged,
        } = self;
        AccountLists {
            answers,
            log,
            acknowledged,
        }
    }
}

/// What a call came to, if it was made.
fn outcome_of(ended: &PairEnded) -> Option<Result<PairReply, PairFault>>
    ensures { result ≡ outcome_of ended.now }
{
    match *ended {
        PairEnded::Got(reply) => Some(Ok(reply)),
        PairEnded::Fault(fault) => Some(Err(fault)),
        PairEnded::CallLost => None,
        PairEnded::ReplyLost(end) => Some(end),
    }
}

/// What a call added to the log.
#[derive(Clone, Copy, Debug, PartialEq, Eq)]
pub(crate) enum Added {
    Nothing,
    Done,
    Doubt,
}

fn added_by(outcome: &Option<Result<PairReply, PairFault>>) -> Added
    ensures { result ≡ added_by outcome.now }
{
    match outcome {
        Some(Ok(PairReply::Reply(Reply::Ok { .. }))) => Added::Done,
        Some(Err(PairFault::Behind { .. })) => Added::Done,
        Some(Err(PairFault::Disk { .. })) => Added::Doubt,
        _ => Added::Nothing,
    }
}

fn is_ok(outcome: &Option<Result<PairReply, PairFault>>) -> bool
    ensures { result ≡ is_ok outcome.now }
{
    matches!(outcome, Some(Ok(PairReply::Reply(Reply::Ok { .. }))))
}

/// Adds the item of an answer's call, if it has one.
fn add_item(log: &mut Vec<Item>, answered: &PairAnswered)
    requires { vec_len log.old + 1 ≤ vec_capacity log.old }
    ensures { log.new.items ≡ log.old.items ++ items_of answered.now }
{
    match added_by(&outcome_of(&answered.end)) {
        Added::Nothing => {}
        Added::Done => log.push_reserved(Item::Done(answered.actor, answered.command)),
        Added::Doubt => log.push_reserved(Item::Doubt(answered.actor, answered.command)),
    }
}

/// Adds an item, for which there is room.
fn add_in_room<X: Copy>(items: &mut Vec<X>, item: X)
    requires { vec_len items.old + 1 ≤ vec_capacity items.old }
    ensures { items.new.items ≡ items.old.items ++ item ∷ [] }
{
    items.push_reserved(item);
}

fn add_place(acknowledged: &mut Vec<u64>, place: u64, ended: &PairEnded)
    requires { vec_len acknowledged.old + 1 ≤ vec_capacity acknowledged.old }
    ensures { acknowledged.new.items
        ≡ acknowledged.old.items ++ acknowledged_by (outcome_of ended.now) place }
{
    if is_ok(&outcome_of(ended)) {
        acknowledged.push_reserved(place);
    }
}
