ghost use Rattle.std.specs.Prelude.{◌≡◌, None};

use std::io::{Printer, Write};

/// A writer that tells its contents at all times or at none.
pub trait SteadyWrite: Write {
    /// Contents that are untold once are never told.
    ghost steady: { (once ever : Self) → Self.contents once ≡ None → Self.contents ever ≡ None };
}

impl<'a, R: Print> SteadyWrite for Printer<'a, R> {
    ghost use Rattle.std.specs.Prelude.{refl};

    ghost steady = { λ _ _ _. refl };
}

impl SteadyWrite for Vec<u8> {
    ghost use Rattle.std.proofs.Common.{sym};
    ghost use Rattle.std.proofs.lemmas.Option.{none-some};

    ghost steady = { λ once ever untold. absurd (none-some once.items (sym untold)) };
}
