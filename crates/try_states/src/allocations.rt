//! Calls that no row of `tests/rows` makes, where memory is refused at most once.
mod others;
mod workers;
