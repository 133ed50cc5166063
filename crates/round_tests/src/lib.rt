//! Tests of rounds: whole lives of boards, over a board on a disk in memory; of what convergence asks; and of
//! the auction.
#![tactic(auto)]

#[cfg(test)]
mod asking;
#[cfg(test)]
mod auctions;
#[cfg(test)]
mod tests;
