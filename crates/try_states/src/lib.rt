//! Tests of public calls whose states no line of text reaches: seats that several threads use, and
//! workers; wires over UDP, and wires of a test's own, which lose, double, forge and fail; items
//! that count their drops; memory and threads that are refused. And the examples of the crates'
//! pages. This crate has tests alone.
//!
//! Each test of `allocations` makes each of its calls twice, which no row of `tests/rows` makes.
//! `tools/refuse-allocations` runs it once for each allocation that it makes, which is then
//! refused: the call says so and leaves what it was lent, and made again it has its answer.
//! `tools/check-refusals` tells which call is in which test.
#![tactic(auto)]

#[cfg(test)]
mod allocations;
#[cfg(test)]
mod clocks;
#[cfg(test)]
mod contended;
#[cfg(test)]
mod contended_locator;
#[cfg(test)]
mod counted;
#[cfg(test)]
mod deaf_wire;
#[cfg(test)]
mod drops;
#[cfg(test)]
mod equal_jobs;
#[cfg(test)]
mod faulty_wires;
#[cfg(test)]
mod gathered;
#[cfg(test)]
mod lossy;
#[cfg(test)]
mod outcome_copies;
#[cfg(test)]
mod pages;
#[cfg(test)]
mod rolling;
#[cfg(test)]
mod seats;
#[cfg(test)]
mod shared;
#[cfg(test)]
mod threads_refused;
#[cfg(test)]
mod udp;
#[cfg(test)]
mod udp_runs;
#[cfg(test)]
mod worker_ids;
#[cfg(test)]
mod worker_jobs;
#[cfg(test)]
mod worker_rounds;
#[cfg(test)]
mod workers;
#[cfg(test)]
mod workers_many;
#[cfg(test)]
mod workers_pair;
#[cfg(test)]
mod workers_slow;
#[cfg(test)]
mod workers_successor;
