//! What contracts note of the generations before one, and nothing at run time.
ghost use Rattle.std.specs.Prelude.{◌≡◌, ◌∷◌, []};
ghost use Rattle.rolling_cache.specs.Eras.{era_of};

use answer_cache::{Carried, Notice};
use std::marker::Model;
use std::snapshot::Snapshot;

/// Where a generation comes from.
#[derive(Drop)]
#[cycle(lineage)]
pub(crate) enum Origin {
    /// It is the first one.
    First,
    /// Another one handed it on.
    HandedOn {
        before: Snapshot<Lineage>,
        told: Snapshot<Notice>,
        carried: Snapshot<Carried>,
    },
}

/// The generations before one: a snapshot of where it comes from. It has no octets.
#[derive(Drop)]
#[cycle(lineage)]
pub(crate) struct Lineage {
    origin: Snapshot<Origin>,
}

impl Model for Lineage {
    ghost use Rattle.std.specs.Prelude.{List, length};
    ghost use Rattle.rolling_cache.specs.Eras.{Era};

    ghost Value = { List Era };

    ghost use Rattle.rolling_cache.specs.Lineages.{eras_of};

    ghost view = { λ it. eras_of it.origin.value };

    // How many there are.
    ghost size = { λ it. length it };
}

impl Lineage {
    /// That of the first generation.
    pub(crate) fn none() -> Lineage
        ensures { result ≡ [] }
    {
        Lineage {
            origin: Snapshot::of(&Origin::First),
        }
    }

    /// That of the next generation, to which this was handed on.
    pub(crate) fn with(&self, told: &Notice, carried: &Carried) -> Lineage
        ensures { result ≡ era_of told.now carried.now ∷ self.now }
    {
        Lineage {
            origin: Snapshot::of(&Origin::HandedOn {
                before: Snapshot::of(self),
                told: Snapshot::of(told),
                carried: Snapshot::of(carried),
            }),
        }
    }
}
