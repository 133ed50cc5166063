//! Hostile use as tables: disks that fail, stop or were damaged, sources and sinks that fail, scenarios that are none.
#![tactic(auto)]

#[cfg(test)]
mod areas;
#[cfg(test)]
mod asserts;
#[cfg(test)]
mod checkpoint;
#[cfg(test)]
mod images;
#[cfg(test)]
mod making;
#[cfg(test)]
mod ports;
#[cfg(test)]
mod reach;
#[cfg(test)]
mod runs;
#[cfg(test)]
mod scenarios;
#[cfg(test)]
mod stops;
#[cfg(test)]
mod whole_run;
