//! What a run takes of its system before a text is located.
ghost use Rattle.std.specs.Prelude.{ℕ, List, IfErr, IfOk};
ghost use Rattle.sipwhere_options.specs.Plans.{IsPlan};
ghost use Rattle.sipwhere_options.specs.declared.run_fault.RunFault as faults;

use dns_transport::{HostWire, RunClock, WireOptions, open_wire};
use sip_resolver::random_key;
use sipwhere_options::{Options, Plan, RunFault, read_plan};
use std::net::{IpAddr, Net, SocketAddr};
use std::random::RandomSource;
use std::rt::Files;
use std::time::Clock;

/// What a run takes of its system before a text is located, a wire and a clock among it. It alone
/// can say that a key was drawn, and that one of its calls failed.
pub trait RunSystem<W, C> {
    // Which key was drawn.
    ghost drew: { List ℕ → Type 0 };

    // How a call failed.
    ghost failed: { faults.RunFault → Type 0 };

    /// Whom the options ask, and how.
    fn plan(&self, options: &Options<'_>) -> Result<Plan, RunFault>
        ensures plan { IfOk result (IsPlan options.now) }
        ensures failed { IfErr result failed };

    /// Draws a key of 32 octets.
    fn draw_key(&self) -> Result<[u8; 32], RunFault>
        ensures drawn { IfOk result drew }
        ensures failed { IfErr result failed };

    /// Starts the clock of the run.
    fn start_clock(&self) -> Result<C, RunFault>
        ensures failed { IfErr result failed };

    /// Opens a wire to servers.
    fn open_wire(
        &self,
        servers: &[SocketAddr],
        local: Option<IpAddr>,
        asks: WireOptions,
        key: [u8; 32],
    ) -> Result<W, RunFault>
        ensures failed { IfErr result failed };
}

/// The system that this program runs on.
#[derive(Drop)]
pub struct HostSystem<'a, R> {
    rt: &'a R,
}

impl<'a, R> HostSystem<'a, R> {
    /// That of this runtime.
    pub fn new(rt: &'a R) -> HostSystem<'a, R> {
        HostSystem { rt }
    }
}

impl<'a, R: Files + Eprint + Net + RandomSource + Clock + AllocGlobal> RunSystem<
    HostWire<'a, R>,
    RunClock<'a, R>,
> for HostSystem<'a, R> {
    ghost use Rattle.std.specs.Prelude.{⊤};

    // Nothing is known of what the system draws.
    ghost drew = { λ _. ⊤ };

    // Nor of how it fails.
    ghost failed = { λ _. ⊤ };

    fn plan(&self, options: &Options<'_>) -> Result<Plan, RunFault> {
        read_plan(self.rt, options)
    }

    fn draw_key(&self) -> Result<[u8; 32], RunFault> {
        Ok(random_key(self.rt)?)
    }

    fn start_clock(&self) -> Result<RunClock<'a, R>, RunFault> {
        Ok(RunClock::start(self.rt)?)
    }

    fn open_wire(
        &self,
        servers: &[SocketAddr],
        local: Option<IpAddr>,
        asks: WireOptions,
        key: [u8; 32],
    ) -> Result<HostWire<'a, R>, RunFault> {
        Ok(open_wire(self.rt, self.rt.alloc(), servers, local, asks, key)?)
    }
}
