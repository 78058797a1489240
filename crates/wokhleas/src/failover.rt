//! Targets that are tried one after the other (RFC 3263 4.3).
ghost use Rattle.std.specs.Prelude.{◌≡◌, ◌≤◌, Bool, List, length, pos};
ghost use Rattle.sip_selection.specs.Trials.{next_trial};
ghost use Rattle.sip_selection.specs.declared.target.Target as target;
ghost use Rattle.wokhleas.specs.Tries.{event_of, progress_of, trial_of};

/// How far the tries of targets are.
#[repr(C)]
#[derive(Drop)]
pub struct Tries {
    /// How many targets there are.
    pub count: usize,
    /// How many failed.
    pub failures: usize,
    /// Whether the one after them answered.
    pub answered: bool,
}

impl Tries {
    /// How far they are, by its number in C.
    fn progress(&self) -> i32
        ensures { result ≡ pos (progress_of self.now) }
    {
        if self.failures >= self.count {
            3
        } else if self.answered {
            2
        } else {
            1
        }
    }
}

/// See `c/wokhleas.h`.
#[unsafe(no_mangle)]
pub extern "C" fn wokhleas_raw_failover_event(tries: &mut Tries, failed: bool) -> i32
    ensures progress { result ≡ pos (progress_of tries.new) }
    ensures next { (targets : List target.Target) → length targets ≡ tries.old.count
        → tries.old.failures ≤ tries.old.count
        → trial_of targets tries.new ≡ next_trial (trial_of targets tries.old) (event_of failed) }
{
    if tries.failures < tries.count && !tries.answered {
        if failed {
            tries.failures += 1;
        } else {
            tries.answered = true;
        }
    }
    tries.progress()
}
