//! Laws of texts: a call of one does nothing, and its contract states the law.
ghost use Rattle.std.specs.Prelude.{◌≡◌, ◌↔◌, ℕ, List, IsTrue};
ghost use Rattle.sip_uri.specs.Same.{same_host, same_uri, same_via};
ghost use Rattle.sip_uri.specs.Uris.{UriText};
ghost use Rattle.sip_uri.specs.ViaRoutes.{ViaRouteText, SameRoute};
ghost use Rattle.sip_uri.specs.Vias.{ViaText};
ghost use Rattle.sip_uri.specs.declared.host.Host.{Host};
ghost use Rattle.sip_uri.specs.declared.route_params.RouteParams.{RouteParams};
ghost use Rattle.sip_uri.specs.declared.uri.SipUri.{SipUri};
ghost use Rattle.sip_uri.specs.declared.via.Via.{Via};

/// A text spells at most one URI.
pub fn law_one_uri_of_a_text()
    ensures { (text : List ℕ) (uri uri' : SipUri) → UriText text uri → UriText text uri'
        → uri ≡ uri' }
{}

/// A text spells at most one Via.
pub fn law_one_via_of_a_text()
    ensures { (text : List ℕ) (via via' : Via) → ViaText text via → ViaText text via' → via ≡ via' }
{}

/// Of where a response goes the parameters of a Via say one thing.
pub fn law_one_route_of_a_text()
    ensures { (text : List ℕ) (via via' : Via) (route route' : RouteParams)
        → ViaRouteText text via route → ViaRouteText text via' route' → SameRoute route route' }
{}

/// Hosts, URIs and Vias are the same, as `==` compares them, exactly where they are equal as
/// values.
pub fn law_same_exactly_where_equal()
    ensures host { (host other : Host) → IsTrue (same_host host other) ↔ (host ≡ other) }
    ensures uri { (uri other : SipUri) → IsTrue (same_uri uri other) ↔ (uri ≡ other) }
    ensures via { (via other : Via) → IsTrue (same_via via other) ↔ (via ≡ other) }
{}
