ghost use Rattle.std.specs.Prelude.{◌≡◌, ◌+◌, ◌^◌, ◌<◌, ℕ, List, IfOk, IfErr, OnOk};
ghost use Rattle.surw_io.specs.Cause.{one_more};
ghost use Rattle.surw_cli.specs.FileAnswer.{HasFile};
ghost use Rattle.surw_cli.specs.Stop.{IsUnfetched};

use crate::stop::Stop;
use std::alloc::Global;
use surw_io::{Shelf, fetch};

/// The bytes of a file of at most `limit` bytes.
pub(crate) fn fetched<F: Shelf>(
    alloc: Global,
    shelf: &mut F,
    name: &str,
    limit: u32,
) -> Result<Vec<u8>, Stop>
    requires { limit + 1 < 2 ^ 32 }
    ensures held { IfOk result (λ bytes. HasFile limit (F.coming shelf.old name.now) bytes.items) }
    ensures moves { OnOk result ((other : List ℕ) → F.coming shelf.new other ≡ F.coming_after shelf.old other) }
    ensures calm { OnOk result (F.in_faults shelf.new ≡ F.in_faults shelf.old) }
    ensures stopped { IfErr result (IsUnfetched limit (F.coming shelf.old name.now) (F.in_faults shelf.old) (F.in_faults shelf.new)) }
    ensures opened_once { F.opens shelf.new ≡ one_more (F.opens shelf.old) }
    ensures made { F.made shelf.new ≡ F.made shelf.old }
    ensures out_faults { F.out_faults shelf.new ≡ F.out_faults shelf.old }
{
    match fetch(alloc, shelf, name, limit) {
        Ok(bytes) => Ok(bytes),
        Err(fault) => Err(Stop::of_fetch(fault, limit)),
    }
}
