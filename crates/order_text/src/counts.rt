ghost use Rattle.std.specs.Prelude.{◌≡◌, ℕ, List, IfOk, MatchResult, MatchOption, codes};
ghost use Rattle.order_text.specs.Counts.{AreCounts};
ghost use Rattle.surw_base.specs.Lines.{IsListText};

use draw_split::Weights;
use std::alloc::Global;
use surw_base::{ListFault, STEPS, THREADS, read_list};

// The counts of a line: the word `counts`, and at most `THREADS` numbers with a sum of at most `STEPS`.
// `Form` comes exactly where the line isn't so.
pub(crate) fn read_counts(alloc: Global, line: &[u8]) -> Result<Weights, ListFault>
    ensures found { IfOk result (λ counts. IsListText (codes "counts") counts line.now × AreCounts counts) }
    ensures only { (counts : List ℕ) → IsListText (codes "counts") counts line.now → AreCounts counts
        → MatchResult result (λ found. found ≡ counts) (λ fault. fault ≡ ListFault.OutOfMemory) }
{
    match counts_of(read_list(alloc, b"counts", line)?.as_slice()) {
        Some(counts) => Ok(counts),
        None => Err(ListFault::Form),
    }
}

// These numbers as counts. None exactly where they are too many or too large.
fn counts_of(numbers: &[u64]) -> Option<Weights>
    ensures { MatchOption result (AreCounts numbers.now → ⊥) (λ counts. (counts ≡ numbers.now) × AreCounts numbers.now) }
{
    if numbers.len() > THREADS {
        return None;
    }
    let mut counts = [0u32; THREADS];
    let mut sum = 0u64;
    for (place, number) in numbers.iter().enumerate() {
        if *number > u64::from(STEPS) - sum {
            return None;
        }
        sum += *number;
        counts[place] = *number as u32;
    }
    Some(Weights::new(&counts[..numbers.len()]))
}
