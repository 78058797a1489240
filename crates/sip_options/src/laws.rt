//! Laws of replies: a call of one does nothing, and its contract states the law.
ghost use Rattle.std.specs.Prelude.{◌≡◌, ◌<◌, ◌^◌, ℕ, List};
ghost use Rattle.sip_options.specs.Replies.{IsReply};

/// A message is a reply to the requests of one branch and one Call-ID alone, and has one status.
pub fn law_reply_is_to_one_request()
    ensures { (branch call_id other_branch other_id : ℕ) → branch < 2 ^ 64 → call_id < 2 ^ 64
        → other_branch < 2 ^ 64 → other_id < 2 ^ 64 → (message : List ℕ) (status other : ℕ)
        → IsReply branch call_id message status → IsReply other_branch other_id message other
        → (branch ≡ other_branch) × (call_id ≡ other_id) × (status ≡ other) }
{}
