//! What is reported of a line.
ghost use Rattle.std.specs.Prelude.{◌≡◌, IfOk};
ghost use Rattle.sipwhere.specs.Accounts.{IsEmpty};

use crate::account::no_account;
use sip_report::{Account, LineOutcome};
use std::alloc::{AllocError, Global};

/// What became of a line, and how its targets came, as far as that is told.
#[derive(Debug, Drop)]
pub struct LineResult {
    /// What became of it.
    pub line_outcome: LineOutcome,
    /// How its targets came, or that memory was refused for it.
    pub account: Result<Account, AllocError>,
}

impl LineResult {
    /// Of a line that needed no reply, or to which none came in time.
    pub fn without_reply(alloc: Global, line_outcome: LineOutcome) -> LineResult
        ensures became { result.line_outcome ≡ line_outcome }
        ensures account { IfOk result.account IsEmpty }
    {
        LineResult {
            line_outcome,
            account: Ok(no_account(alloc)),
        }
    }
}
