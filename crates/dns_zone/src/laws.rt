//! Laws of zones. A call of one does nothing; its contract states the law.
ghost use Rattle.std.specs.Prelude.{◌≡◌, ◌↔◌, ◌⊎◌, ◌++◌, ◌∷◌, [], ℕ, List};
ghost use Rattle.dns_answers.specs.Chains.{Chain};
ghost use Rattle.dns_message.specs.declared.resource.Record as resource;
ghost use Rattle.dns_zone.specs.Authorities.{IsNearestStart, nearest_start, starts_at};
ghost use Rattle.dns_zone.specs.Zones.{IsPath, Owned, path};

/// The CNAME records that a reply begins with are the first of each name on the way, and lead to a
/// name without one, unless they are eight (RFC 1034 3.6.2).
pub fn law_zone_follows_cnames()
    ensures { (zone : List Owned) (name : List (List ℕ)) (found : Chain)
        → (path zone name ≡ found) ↔ IsPath 8 zone name found }
{}

/// The SOA record of a negative reply is the first one of the longest suffix of the name, or of the
/// name itself, that has one; and there is none only where no suffix has one (RFC 2308 3).
pub fn law_zone_names_its_authority()
    ensures found { (zone : List Owned) (name : List (List ℕ)) (start : resource.Record)
        → (nearest_start zone name ≡ start ∷ []) ↔ IsNearestStart zone name start }
    ensures none { (zone : List Owned) (name : List (List ℕ)) → (nearest_start zone name ≡ [])
        ↔ ((labels owner : List (List ℕ)) → name ≡ labels ++ owner → starts_at zone owner ≡ []) }
    ensures one { (zone : List Owned) (name : List (List ℕ))
        → (nearest_start zone name ≡ [])
        ⊎ ((start : resource.Record) × (nearest_start zone name ≡ start ∷ [])) }
{}
