ghost use Rattle.std.specs.Prelude.{◌≡◌, ◌++◌, ℕ, List, IfOk, OnOk, MatchResult};
ghost use Rattle.surw_base.specs.Lines.{IsListText, list_line, list_text};

use crate::{OutOfMemory, push_item, read_item};
use std::alloc::{AllocFailed, Global};

/// Why a text lists no numbers.
#[derive(Clone, Copy, Debug, PartialEq, Eq)]
pub enum ListFault {
    /// The text isn't the word and numbers below 2^64, each behind one space.
    Form,
    /// Memory was refused.
    OutOfMemory,
}

impl<T: Drop> From<AllocFailed<T>> for ListFault {
    ghost use Rattle.std.specs.Prelude.{◌≡◌};
    ghost use Rattle.surw_base.specs.declared.list.ListFault.TheVariants.{OutOfMemory};

    ghost from_gives = { λ _ fault. fault ≡ OutOfMemory };

    fn from(_refused: AllocFailed<T>) -> Self {
        ListFault::OutOfMemory
    }
}

/// The numbers that a text lists behind a word, as `draws 0 1`. `Form` comes exactly where the text isn't so.
pub fn read_list(alloc: Global, word: &[u8], text: &[u8]) -> Result<Vec<u64>, ListFault>
    ensures found { IfOk result (λ list. IsListText word.now list.items text.now) }
    ensures only { (numbers : List ℕ) → IsListText word.now numbers text.now
        → MatchResult result (λ list. list.items ≡ numbers) (λ fault. fault ≡ ListFault.OutOfMemory) }
{
    let mut rest = match text.strip_prefix(word) {
        Some(rest) => rest,
        None => return Err(ListFault::Form),
    };
    let mut numbers = Vec::new(alloc);
    while !rest.is_empty() {
        let (number, after) = match read_item(rest) {
            Some(item) => item,
            None => return Err(ListFault::Form),
        };
        numbers.push(number)?;
        rest = after;
    }
    Ok(numbers)
}

/// Appends a word and then numbers, each behind a space. After a refusal a part of them may stand there.
pub fn push_list(out: &mut Vec<u8>, word: &[u8], numbers: &[u64]) -> Result<(), OutOfMemory>
    ensures { OnOk result (out.new.items ≡ out.old.items ++ list_text word.now numbers.now) }
{
    out.extend_from_slice(word)?;
    for number in numbers {
        push_item(out, *number)?;
    }
    Ok(())
}

/// Appends the line of a word and then numbers. After a refusal a part of it may stand there.
#[tactic(auto, unfolding(crate::specs::Lines::list_line))]
pub fn push_list_line(out: &mut Vec<u8>, word: &[u8], numbers: &[u64]) -> Result<(), OutOfMemory>
    ensures { OnOk result (out.new.items ≡ out.old.items ++ list_line word.now numbers.now) }
{
    push_list(out, word, numbers)?;
    out.push(b'\n')?;
    Ok(())
}

#[cfg(test)]
mod tests;
