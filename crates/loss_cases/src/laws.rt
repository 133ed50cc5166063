//! The laws of what is told. These functions do nothing: they are there for what they ensure.
ghost use Rattle.loss_cases.specs.Fits.{FitsFill};
ghost use Rattle.loss_cases.specs.Turns.{TurnsSurvive};

/// What is told to survive of a tag does so: for each number up to it, so many of the first cells of
/// that order can go, and one more can't, or there is none. It isn't said of other orders.
pub fn turns_survive()
    ensures { TurnsSurvive }
{}

/// Of the instances that `fit` asks for as many find room as there is room for, or all of them, and
/// no placing has more, whatever the scheduler.
pub fn fits_fill()
    ensures { FitsFill }
{}
