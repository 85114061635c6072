ghost use Rattle.std.specs.Prelude.{◌≡◌, ℕ, List, IfOk, IfErr, MatchResult};
ghost use Rattle.order_text.specs.FileFault.{IsOtherFile};
ghost use Rattle.order_text.specs.OrderFile.{IsOrderFile, IsOtherOrder};

use crate::counts::read_counts;
use crate::file_fault::FileFault;
use crate::first_line::first_line;
use draw_split::Weights;
use std::alloc::Global;
use surw_base::read_list;

/// What an order file says.
#[derive(Drop)]
pub struct OrderFile {
    /// How often each thread comes.
    pub counts: Weights,
    /// The draws.
    pub draws: Vec<u64>,
}

/// The counts and the draws of an order file: a line `counts` with the counts, and a line `draws` with the
/// draws. `Lines` comes exactly where the bytes are no order file.
pub fn read_order_file(alloc: Global, bytes: &[u8]) -> Result<OrderFile, FileFault>
    ensures found { IfOk result (λ file. IsOrderFile bytes.now file.counts file.draws.items) }
    ensures only { (counts draws : List ℕ) → IsOrderFile bytes.now counts draws
        → MatchResult result (λ file. (file.counts ≡ counts) × (file.draws.items ≡ draws)) (λ fault. fault ≡ FileFault.OutOfMemory) }
    ensures wrong { IfErr result (IsOtherFile (IsOtherOrder bytes.now)) }
{
    if bytes.is_empty() {
        return Err(FileFault::Lines { number: 1 });
    }
    let (counts_line, rest) = first_line(bytes);
    let counts = match read_counts(alloc, counts_line) {
        Ok(counts) => counts,
        Err(fault) => return Err(FileFault::at(fault, 1)),
    };
    if rest.is_empty() {
        return Err(FileFault::Lines { number: 2 });
    }
    let (draws_line, rest) = first_line(rest);
    let draws = match read_list(alloc, b"draws", draws_line) {
        Ok(draws) => draws,
        Err(fault) => return Err(FileFault::at(fault, 2)),
    };
    if !rest.is_empty() {
        return Err(FileFault::Lines { number: 3 });
    }
    Ok(OrderFile { counts, draws })
}
