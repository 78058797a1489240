//! Laws of responses: a call of one does nothing, and its contract states the law.
ghost use Rattle.std.specs.Prelude.{◌≡◌, ℕ, Option, Some, None, false, true};
ghost use Rattle.sip_response.specs.Routes.{IsRoute, steps, is_reliable};
ghost use Rattle.sip_response.specs.Sources.{IsReceived, address_of, rport_of};
ghost use Rattle.sip_response.specs.declared.endpoint.Endpoint.{Endpoint};
ghost use Rattle.sip_response.specs.declared.route.ResponseRoute.{ResponseRoute};
ghost use Rattle.sip_response.specs.declared.route.Step.TheVariants.{Received, SentBy};
ghost use Rattle.sip_uri.specs.declared.host_part.HostPart.{HostPart};
ghost use Rattle.sip_uri.specs.declared.route_params.RouteParams.{RouteParams};
ghost use Rattle.sip_uri.specs.declared.route_params.Rport.TheVariants.{Absent, Empty};
ghost use Rattle.sip_uri.specs.declared.transport.Transport.{Transport};

/// Of one Via, its parameters and a transport there is one route.
pub fn law_one_route()
    ensures { (over : Transport) (written : Option ℕ) (params : RouteParams)
        (route other : ResponseRoute) → IsRoute over written params route
        → IsRoute over written params other → route ≡ other }
{}

/// A datagram from the address that its Via names, without `rport` and `maddr`, is answered where
/// RFC 3263 5 says, and nowhere else.
pub fn law_own_address_leads_to_sent_by()
    ensures { (over : Transport) (written : Option ℕ) (params : RouteParams)
        (route : ResponseRoute) (host : HostPart) (source : Endpoint)
        → is_reliable over ≡ false → address_of host ≡ Some source.address
        → IsReceived host Absent source.address params.received → params.maddr ≡ None
        → IsRoute over written params route → route ≡ steps SentBy None None }
{}

/// A datagram whose Via has `rport` without a value, and no `maddr`, is answered at once to where
/// it came from.
pub fn law_rport_leads_to_the_source()
    ensures { (over : Transport) (written : Option ℕ) (params : RouteParams)
        (route : ResponseRoute) (host : HostPart) (source : Endpoint)
        → is_reliable over ≡ false → IsReceived host Empty source.address params.received
        → params.rport ≡ rport_of Empty source.port → params.maddr ≡ None
        → IsRoute over written params route → route.first ≡ Received source true }
{}
