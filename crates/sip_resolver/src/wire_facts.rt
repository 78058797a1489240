//! What may be known of what comes over a wire.
use crate::facts::Facts;
use dns_queries::{Clock, MessageWire};
use std::marker::PhantomData;

/// Octets that a wire gives, at moments that a clock shows.
#[derive(Clone, Copy, Debug)]
pub struct WireFacts<W, C> {
    wire: PhantomData<W>,
    clock: PhantomData<C>,
}

impl<W: MessageWire, C: Clock> Facts for WireFacts<W, C> {
    ghost gives = { W.gives };

    ghost shows = { C.shows };
}
