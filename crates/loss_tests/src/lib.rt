//! Tests of what happens where cells go: alone, one after another, in batches; and where more would fit.
#![tactic(auto)]

#[cfg(test)]
mod drains;
#[cfg(test)]
mod dumps;
#[cfg(test)]
mod fits;
#[cfg(test)]
mod losses;
