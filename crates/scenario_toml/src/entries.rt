ghost use Rattle.std.specs.Prelude.{◌≡◌, IfOk};
ghost use Rattle.seed_draws.specs.declared.any_draws.AnyDraws.TheVariants.{Strict, Loose};
ghost use Rattle.scenario_toml.specs.Draws.{whole};

use seed_draws::{AnyDraws, LooseTape, StrictTape};
use std::alloc::Global;
use std::marker::Model;
use surw_base::OutOfMemory;

/// The entries of the two tapes of a file, at most `STEPS` each.
#[derive(Debug, Drop)]
pub(crate) struct Entries {
    /// Those of the selected draws.
    pub(crate) selected: Vec<u64>,
    /// Those of the other draws.
    pub(crate) other: Vec<u64>,
}

impl Model for Entries {
    ghost use Rattle.std.specs.Prelude.{◌≤◌, length};
    ghost use Rattle.surw_base.specs.declared.limits.TheConstants.{STEPS};
    ghost use Rattle.scenario_toml.specs.Tapes.{Entries};

    ghost Value = { Entries };

    ghost view = { λ tapes. record { selected = tapes.selected.items; other = tapes.other.items } };

    ghost invariant = { λ tapes. (length tapes.selected.items ≤ STEPS) × (length tapes.other.items ≤ STEPS) };
}

impl Entries {
    /// The draws of the tape `selected`, which refuses what it can't answer. An error comes only where memory is refused.
    pub(crate) fn selected_draws(&self, alloc: Global) -> Result<AnyDraws, OutOfMemory>
        ensures { IfOk result (λ draws. draws ≡ Strict (whole self.now.selected)) }
    {
        let entries = Vec::from_slice(alloc, self.selected.as_slice())?;
        Ok(AnyDraws::Strict(StrictTape::new(entries)))
    }

    /// The draws of the tape `other`, which never refuses. An error comes only where memory is refused.
    pub(crate) fn other_draws(&self, alloc: Global) -> Result<AnyDraws, OutOfMemory>
        ensures { IfOk result (λ draws. draws ≡ Loose (whole self.now.other)) }
    {
        let entries = Vec::from_slice(alloc, self.other.as_slice())?;
        Ok(AnyDraws::Loose(LooseTape::new(entries)))
    }
}
