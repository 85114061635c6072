ghost use Rattle.std.specs.Prelude.{◌≡◌, ◌+◌, ◌<◌, ◌≤◌, ◌∷◌, ℕ, List, All, length, map, codes, IfOk, IfErr, MatchResult};
ghost use Rattle.draw_split.specs.Split.{Parts};
ghost use Rattle.order_text.specs.DrawsFile.{AreThreads, AreOffsets, IsOffsetsLine, AreOffsetsLines, IsDrawsFile, IsDrawsLine, IsOtherDraws};
ghost use Rattle.order_text.specs.FileFault.{IsFirstWrongLine, IsOtherFile};
ghost use Rattle.surw_base.specs.Lines.{IsListText};
ghost use Rattle.order_text.specs.Lines.{lines_of};

use crate::counts::read_counts;
use crate::file_fault::FileFault;
use crate::first_line::first_line;
use draw_split::{Split, Weights};
use std::alloc::Global;
use surw_base::{ListFault, STEPS, THREADS, ThreadNo, read_list};

/// What a file of draws says.
#[derive(Drop)]
pub struct DrawsFile {
    /// How often each thread comes.
    pub counts: Weights,
    /// The order, and the offsets of each thread.
    pub split: Split,
}

/// The counts, the order and the offsets of a file of draws: a line `counts` with the counts, a line `order`
/// with the order, and for each count a line `offsets` with its thread and that thread's offsets. `Lines`
/// comes exactly where the bytes are no file of draws.
pub fn read_draws_file(alloc: Global, bytes: &[u8]) -> Result<DrawsFile, FileFault>
    ensures found { IfOk result (λ file. IsDrawsFile bytes.now file.counts file.split) }
    ensures only { (counts : List ℕ) (split : Parts) → IsDrawsFile bytes.now counts split
        → MatchResult result (λ file. (file.counts ≡ counts) × (file.split ≡ split)) (λ fault. fault ≡ FileFault.OutOfMemory) }
    ensures wrong { IfErr result (IsOtherFile (IsOtherDraws bytes.now)) }
    ensures order { IfOk result (λ file. length file.split.order ≤ STEPS) }
    ensures offsets { IfOk result (λ file. All (λ list. length list ≤ STEPS) file.split.offsets) }
{
    if bytes.is_empty() {
        return Err(FileFault::Lines { number: 1 });
    }
    let (counts_line, rest) = first_line(bytes);
    let counts = match read_counts(alloc, counts_line) {
        Ok(counts) => counts,
        Err(fault) => return Err(FileFault::at(fault, 1)),
    };
    if rest.is_empty() {
        return Err(FileFault::Lines { number: 2 });
    }
    let (order_line, rest) = first_line(rest);
    let order = match read_order(alloc, order_line) {
        Ok(order) => order,
        Err(fault) => return Err(FileFault::at(fault, 2)),
    };
    let offsets = read_offsets(alloc, counts.threads(), rest)?;
    let split = Split::new(alloc, order, offsets)?;
    Ok(DrawsFile { counts, split })
}

// The order of a line.
fn read_order(alloc: Global, line: &[u8]) -> Result<Vec<ThreadNo>, ListFault>
    ensures found { IfOk result (λ order. IsListText (codes "order") order.items line.now × AreThreads order.items) }
    ensures only { (order : List ℕ) → IsListText (codes "order") order line.now → AreThreads order
        → MatchResult result (λ found. found.items ≡ order) (λ fault. fault ≡ ListFault.OutOfMemory) }
{
    let numbers = read_list(alloc, b"order", line)?;
    threads_of(alloc, numbers.as_slice())
}

// These numbers as threads. `Form` exactly where they are too many or one is too large.
fn threads_of(alloc: Global, numbers: &[u64]) -> Result<Vec<ThreadNo>, ListFault>
    ensures found { IfOk result (λ threads. (threads.items ≡ numbers.now) × AreThreads numbers.now) }
    ensures only { AreThreads numbers.now → IfErr result (λ fault. fault ≡ ListFault.OutOfMemory) }
{
    if numbers.len() > STEPS as usize {
        return Err(ListFault::Form);
    }
    let mut threads = Vec::new(alloc);
    for number in numbers {
        if *number >= THREADS as u64 {
            return Err(ListFault::Form);
        }
        threads.push(ThreadNo::new(*number as u8).unwrap())?;
    }
    Ok(threads)
}

// The offsets of the first threads: a text of one line for each.
fn read_offsets(alloc: Global, threads: usize, text: &[u8]) -> Result<Vec<Vec<u32>>, FileFault>
    requires { threads ≤ THREADS }
    ensures found { IfOk result (λ lists. AreOffsetsLines threads (map (λ list. list.items) lists.items) (lines_of text.now)) }
    ensures only { (offsets : List (List ℕ)) → AreOffsetsLines threads offsets (lines_of text.now)
        → MatchResult result (λ lists. map (λ list. list.items) lists.items ≡ offsets) (λ fault. fault ≡ FileFault.OutOfMemory) }
    ensures wrong { (first second : List ℕ) → IsDrawsLine threads 0 first → IsDrawsLine threads 1 second
        → IfErr result (IsOtherFile (IsFirstWrongLine (IsDrawsLine threads) (threads + 2) (first ∷ second ∷ lines_of text.now))) }
{
    let mut lists = Vec::new(alloc);
    let mut rest = text;
    for thread in 0..threads {
        let number = thread as u64 + 3;
        if rest.is_empty() {
            return Err(FileFault::Lines { number });
        }
        let (line, after) = first_line(rest);
        let offsets = match read_offsets_line(alloc, thread as u64, line) {
            Ok(offsets) => offsets,
            Err(fault) => return Err(FileFault::at(fault, number)),
        };
        lists.push(offsets)?;
        rest = after;
    }
    if !rest.is_empty() {
        let number = threads as u64 + 3;
        return Err(FileFault::Lines { number });
    }
    Ok(lists)
}

// The offsets of a thread's line.
fn read_offsets_line(alloc: Global, thread: u64, line: &[u8]) -> Result<Vec<u32>, ListFault>
    ensures found { IfOk result (λ offsets. IsOffsetsLine thread offsets.items line.now) }
    ensures only { (offsets : List ℕ) → IsOffsetsLine thread offsets line.now
        → MatchResult result (λ found. found.items ≡ offsets) (λ fault. fault ≡ ListFault.OutOfMemory) }
{
    let numbers = read_list(alloc, b"offsets", line)?;
    match numbers.as_slice().strip_prefix(&[thread]) {
        Some(offsets) => offsets_of(alloc, offsets),
        None => Err(ListFault::Form),
    }
}

// These numbers as offsets. `Form` exactly where they are too many or one is too large.
fn offsets_of(alloc: Global, numbers: &[u64]) -> Result<Vec<u32>, ListFault>
    ensures found { IfOk result (λ offsets. (offsets.items ≡ numbers.now) × AreOffsets numbers.now) }
    ensures only { AreOffsets numbers.now → IfErr result (λ fault. fault ≡ ListFault.OutOfMemory) }
{
    if numbers.len() > STEPS as usize {
        return Err(ListFault::Form);
    }
    let mut offsets = Vec::new(alloc);
    for number in numbers {
        if *number > u64::from(u32::MAX) {
            return Err(ListFault::Form);
        }
        offsets.push(*number as u32)?;
    }
    Ok(offsets)
}
