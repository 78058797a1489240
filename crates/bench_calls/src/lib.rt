//! The calls of this project as C functions, for the measurements in `bench/`.
//!
//! Values of Rattle cannot be handed to C. So each function makes a call, lets go of what the call
//! gave, and returns a number of it, which is 0 where the call gave nothing. A call that needs more
//! than octets is made many times in one go, so that what is prepared for it counts little.
#![tactic(auto)]

mod answers;
mod choices;
mod messages;
mod orders;
mod texts;
