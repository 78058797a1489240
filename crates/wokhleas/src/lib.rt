//! The C library: many requests at once as C functions, without I/O (`c/wokhleas.h` says what each
//! does).
//!
//! C has a `Handle`, which is the box of a `RollingResolver` or none. Each function takes the box
//! out, makes the call and puts it back, so it needs nothing of its caller but what C owes: a
//! handle that is all zeros or that `wokhleas_raw_open` opened, and no copy of one that is open.
//! `c/wokhleas.c` tests for NULL before it calls one of these.
#![tactic(auto)]

mod failover;
mod handle;
mod held;
mod laws;
mod lifetime;
mod loose;
mod numbers;
mod outcomes;
mod requests;
mod stats;
mod status;
mod told;
mod wire;
