//! What may be known of what comes over a wire.
use dns_queries::{Clock, Wire};
use sip_resolver::Facts;
use std::marker::PhantomData;

/// Octets that a wire gives, at moments that a clock shows.
#[derive(Clone, Copy, Debug)]
pub(crate) struct WireFacts<W, C> {
    wire: PhantomData<W>,
    clock: PhantomData<C>,
}

impl<W: Wire, C: Clock> Facts for WireFacts<W, C> {
    ghost gives = { W.gives };

    ghost shows = { C.shows };
}
