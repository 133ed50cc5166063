//! The auction, job by job or as a whole.
ghost use Rattle.std.specs.Prelude.{◌≡◌, IfOk, OnOk, OnErr};
ghost use Rattle.auctioneer.specs.Asked.{AreJobs, AreAnswers};
ghost use Rattle.auctioneer.specs.Auction.{auction, placement_on, stands_with};
ghost use Rattle.auctioneer.specs.Least.{best};
ghost use Rattle.auctioneer.specs.Order.{in_order};
ghost use Rattle.auctioneer.specs.Stands.{stands_of};

use crate::field::Field;
use crate::placement::Placement;
use crate::stand::Stand;
use crate::turns::in_order;
use cell_records::{Answer, Job};
use diego_names::{List, OutOfMemory};
use std::alloc::Global;
use std::marker::Model;

/// The cells of an auction as they stand after the jobs placed so far, in the order of their names.
///
/// A planner places its jobs one by one, most often in the order that `in_order` tells.
#[derive(Drop)]
pub struct Auction {
    field: Field,
}

impl Model for Auction {
    ghost use Rattle.std.specs.Prelude as plain;
    ghost use Rattle.auctioneer.specs.Fields.{IsFieldOf};
    ghost use Rattle.auctioneer.specs.declared.stand.Stand as stand;

    ghost Value = { plain.List stand.Stand };

    ghost view = { λ a. a.field.stands.items };

    ghost invariant = { λ a. IsFieldOf a.field };
}

impl Auction {
    /// An auction over cells that answered so, before its first job.
    pub fn new(alloc: Global, cells: &[Answer]) -> Result<Auction, OutOfMemory>
        requires { AreAnswers cells.now }
        ensures { IfOk result (λ made. made ≡ stands_of cells.now) }
    {
        let field = Field::new(alloc, cells)?;
        Ok(Auction { field })
    }

    /// Places the job on the best cell that fits it as the cells stand now, and tells where it went.
    /// After an error the cells are as before, and the same job may be placed again. It is not asked
    /// that job names differ.
    pub fn place(&mut self, job: &Job) -> Result<Placement, OutOfMemory>
        ensures placement { IfOk result (λ made. made ≡ placement_on job.now (best self.old job.now)) }
        ensures ok { OnOk result (self.new ≡ stands_with job.now (best self.old job.now) self.old) }
        ensures err { OnErr result (self.new ≡ self.old) }
    {
        self.field.place(job)
    }

    /// The cells as they stand now.
    pub fn stands(&self) -> &[Stand]
        ensures { result.now ≡ self.now }
    {
        self.field.stands()
    }
}

/// Places each job on the best cell that fits it, in the order of the auction, and tells where each
/// went.
pub fn run_auction(
    alloc: Global,
    jobs: &[Job],
    cells: &[Answer],
) -> Result<List<Placement>, OutOfMemory>
    requires jobs { AreJobs jobs.now }
    requires cells { AreAnswers cells.now }
    ensures { IfOk result (λ list. list ≡ auction cells.now (in_order jobs.now)) }
{
    let sorted = in_order(alloc, jobs)?;
    let mut auction = Auction::new(alloc, cells)?;
    let mut list = List::new(alloc);
    for job in &sorted {
        let made = auction.place(job)?;
        list.push(made)?;
    }
    Ok(list)
}
