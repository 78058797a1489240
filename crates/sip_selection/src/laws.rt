//! Laws of the choice. A call of one does nothing; its contract states the law.
ghost use Rattle.std.specs.Prelude.{◌≡◌, ◌≢◌, ◌++◌, ◌==◌, ℕ, List, IsPermutation, filter};
ghost use Rattle.dns_message.specs.declared.question.Question.{Question};
ghost use Rattle.std.specs.List.{fold};
ghost use Rattle.std.specs.List.Sorted.{IsNonDecreasingBy};
ghost use Rattle.sip_selection.specs.Choice.{locate, need};
ghost use Rattle.sip_selection.specs.Known.{Given};
ghost use Rattle.sip_selection.specs.Rules.{ServiceRule, by_preference};
ghost use Rattle.sip_selection.specs.declared.caps.Caps.{Caps};
ghost use Rattle.sip_selection.specs.declared.request.Request.{Request};
ghost use Rattle.sip_selection.specs.Trials.{begun, next_trial, progress_by, progress_of, tried_by, tried_in};
ghost use Rattle.sip_selection.specs.declared.failover.Event.{Event};
ghost use Rattle.sip_selection.specs.declared.target.Target.{Target};

/// After any events as many targets are tried as failed before the first response, and one more, as
/// far as there are any; and none is left exactly where all failed.
pub fn law_trials_follow_events()
    ensures tried { (targets : List Target) (events : List Event)
        → tried_in (fold next_trial (begun targets) events) ≡ tried_by targets events }
    ensures progress { (targets : List Target) (events : List Event)
        → progress_of (fold next_trial (begun targets) events) ≡ progress_by targets events }
{}

/// Where a request goes does not change when further answers are given: what is not a question is
/// final.
pub fn law_resolutions_are_final()
    ensures { (request : Request) (caps : Caps) (words : List ℕ) (given more : List Given)
        → ((question : Question) → locate request caps words given ≢ need question)
        → locate request caps words (given ++ more) ≡ locate request caps words given }
{}

/// The rules are ordered by PREFERENCE: each of them once, none before one of a lower PREFERENCE,
/// and those of the same one in the order that they had (RFC 3403 4.1).
pub fn law_rules_stand_by_preference()
    ensures complete { (rules : List ServiceRule) → IsPermutation rules (by_preference rules) }
    ensures lowest_first { (rules : List ServiceRule)
        → IsNonDecreasingBy (λ it. it.rule.preference) (by_preference rules) }
    ensures as_they_stood { (rules : List ServiceRule) (preference : ℕ)
        → filter (λ it. it.rule.preference == preference) (by_preference rules)
        ≡ filter (λ it. it.rule.preference == preference) rules }
{}
