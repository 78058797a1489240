//! What asks servers whether they are there.
ghost use Rattle.std.specs.Prelude.{◌≡◌, IfOk};
ghost use Rattle.sip_options.specs.declared.transport.Transport.{Transport as Over};
ghost use Rattle.sip_ping.specs.declared.answer.Answer.{Answer};
ghost use Rattle.sip_selection.specs.declared.target.Target.{Target};
ghost use Rattle.sip_tries.specs.Turns as spec;

use sip_ping::Answer;
use sip_selection::Target;
use std::alloc::{AllocError, Global};

/// What asks servers whether they are there.
pub trait Pinger {
    // To ask at a target, over a transport, takes it from one state to another, with this answer.
    ghost asks: { Self → Over → Target → Answer → Self → Type 0 };

    /// Asks the server at a target, over a transport without TLS.
    ///
    /// # Errors
    ///
    /// Memory was refused.
    fn ask(
        &mut self,
        alloc: Global,
        over: sip_options::Transport,
        target: &Target,
    ) -> Result<Answer, AllocError>
        ensures { IfOk result (λ answer. asks self.old over target.now answer self.new) };
}

/// The transport that a request goes over to a target, if there is one: UDP or TCP.
pub fn over_of(transport: sip_uri::Transport) -> Option<sip_options::Transport>
    ensures { result ≡ spec.over_of transport }
{
    match transport {
        sip_uri::Transport::Udp => Some(sip_options::Transport::Udp),
        sip_uri::Transport::Tcp => Some(sip_options::Transport::Tcp),
        sip_uri::Transport::Sctp | sip_uri::Transport::Tls => None,
    }
}
