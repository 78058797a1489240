//! The first moment by which one of some requests ends.
ghost use Rattle.std.specs.Prelude.{◌≡◌, ◌↔◌, ◌≤◌, ◌<◌, ◌-◌, ◌^◌, ℕ, List, ◌∷◌, Option, Some, None, IsTrue, MatchOption, false};
ghost use Rattle.sip_resolver.specs.Earliest.{IsEarliest, ends_at};
ghost use Rattle.sip_resolver.specs.Expiries.{is_expired};

/// A moment before which none of some requests ends, and how many of them end at it.
#[derive(Clone, Copy)]
pub(crate) struct Earliest {
    /// None: none ends before its questions do.
    moment: Option<u64>,
    count: usize,
}

impl Earliest {
    /// No request has a moment by which it ends.
    pub(crate) fn never() -> Earliest
        ensures { result ≡ record { moment = None; count = 0 } }
    {
        Earliest {
            moment: None,
            count: 0,
        }
    }

    /// So many end at this moment, and none before it.
    pub(crate) fn at(moment: u64, count: usize) -> Earliest
        ensures { result ≡ record { moment = Some moment; count = count } }
    {
        Earliest {
            moment: Some(moment),
            count,
        }
    }

    /// The moment before which none ends.
    pub(crate) fn moment(&self) -> Option<u64>
        ensures { result ≡ self.now.moment }
    {
        self.moment
    }

    /// Whether none ends at the moment any more: the first one to end may do so later.
    pub(crate) fn is_past(&self) -> bool
        ensures { MatchOption self.now.moment (result ≡ false)
            (λ _. IsTrue result ↔ (self.now.count ≡ 0)) }
    {
        self.moment.is_some() && self.count == 0
    }

    /// Whether the moment has come.
    pub(crate) fn has_come(&self, now: u64) -> bool
        ensures { result ≡ is_expired now self.now.moment }
    {
        match self.moment {
            Some(moment) => moment <= now,
            None => false,
        }
    }

    /// One request more ends by this moment, if it has one.
    pub(crate) fn add(&mut self, until: Option<u64>)
        requires { self.old.count < 2 ^ 64 - 1 }
        ensures { (untils : List (Option ℕ)) → IsEarliest untils self.old
            → IsEarliest (until ∷ untils) self.new }
    {
        let Some(until) = until else {
            return;
        };
        let Some(moment) = self.moment else {
            *self = Earliest::at(until, 1);
            return;
        };
        if until < moment {
            *self = Earliest::at(until, 1);
            return;
        }
        if until == moment {
            self.count += 1;
        }
    }

    /// One request is gone that ends by this moment, if it has one.
    pub(crate) fn remove(&mut self, until: Option<u64>)
        requires { ends_at self.old.moment until ≤ self.old.count }
        ensures { (untils : List (Option ℕ)) → IsEarliest (until ∷ untils) self.old
            → IsEarliest untils self.new }
    {
        let Some(until) = until else {
            return;
        };
        let Some(moment) = self.moment else {
            return;
        };
        if until == moment {
            self.count -= 1;
        }
    }
}
