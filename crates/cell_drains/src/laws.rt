//! The laws of a drain. The functions do nothing: they are there for what they ensure.
ghost use Rattle.cell_drains.specs.Laws.{
  BatchesAreOfOneKind,
  DrainsAreChains,
  NoCellGoesTwice,
  StepsKeepTheWanted,
};

/// A batch has one zone and one tag, at least one cell and at most so many. One after another the batches
/// are all the cells in their order.
pub fn batches_are_of_one_kind()
    ensures { BatchesAreOfOneKind }
{}

/// No cell is in two batches, nor twice in one, unless it is given twice.
pub fn no_cell_goes_twice()
    ensures { NoCellGoesTwice }
{}

/// There is a step for each batch. It is the plan with the batch lost on the site that the steps before it
/// leave, and the next step begins with the site that it leaves.
pub fn drains_are_chains()
    ensures { DrainsAreChains }
{}

/// No step loses an instance that is wanted, and none doubles one: an instance that stands on other cells
/// stays there, and one that doesn't stands on one cell then, or has no room and waits on.
pub fn steps_keep_the_wanted()
    ensures { StepsKeepTheWanted }
{}
