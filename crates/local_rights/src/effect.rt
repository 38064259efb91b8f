//! What a cell that rises is to the rights of a site.
ghost use Rattle.std.specs.Prelude.{◌≡◌, ◌+◌, ◌<◌, ◌≤◌, ◌^◌};
ghost use Rattle.local_rights.specs.declared.effect.Effect.TheVariants.{Takes};
ghost use Rattle.local_rights.specs.Effects.{effect_of, left_after};

use rights_lattice::{Cell, SiteId};

/// What a cell that rises is to the rights of a site.
#[derive(Clone, Copy, PartialEq, Eq, Debug)]
pub enum Effect {
    /// They grow by as much: the site released, was given or took back.
    Adds,
    /// They shrink by as much: the site sold or gave away.
    Takes,
    /// They stay: the cell is of other sites alone.
    Leaves,
}

impl Effect {
    /// What this cell is to the rights of site `me`.
    pub fn of(cell: Cell, me: SiteId) -> Effect
        ensures { result ≡ effect_of cell me }
    {
        let (gains, loses) = match cell {
            Cell::Gave { by, to } => (to == me, by == me),
            Cell::Used { by } => (false, by == me),
            Cell::Back { by } => (by == me, false),
        };
        if gains {
            Effect::Adds
        } else if loses {
            Effect::Takes
        } else {
            Effect::Leaves
        }
    }

    /// What is left once a cell of this effect has risen by `more`.
    pub fn apply(self, left: u64, more: u64) -> u64
        requires fits { left + more < 2 ^ 64 }
        requires takes { self ≡ Takes → more ≤ left }
        ensures { result ≡ left_after self left more }
    {
        match self {
            Effect::Adds => left + more,
            Effect::Takes => left - more,
            Effect::Leaves => left,
        }
    }
}
