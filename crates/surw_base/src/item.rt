ghost use Rattle.std.specs.Prelude.{◌≡◌, ◌∷◌, ◌++◌, ℕ, List, IfSome, MatchOption, OnOk};
ghost use Rattle.std.specs.Fmt.{decimal};
ghost use Rattle.surw_base.specs.Lines.{IsItem};
ghost use Rattle.surw_base.specs.Number.{BeginsWithNoDigit};

use crate::{OutOfMemory, push_number, read_number};

/// The number below 2^64 behind one space with which a text begins, and what follows it. None exactly where the
/// text doesn't begin so.
pub fn read_item(text: &[u8]) -> Option<(u64, &[u8])>
    ensures found { IfSome result (λ item. IsItem text.now item.0 item.1.now) }
    ensures only { (number : ℕ) (rest : List ℕ) → IsItem text.now number rest → BeginsWithNoDigit rest
        → MatchOption result ⊥ (λ item. (item.0 ≡ number) × (item.1.now ≡ rest)) }
{
    let digits = match text.strip_prefix(b" ") {
        Some(digits) => digits,
        None => return None,
    };
    match read_number(digits) {
        Some((number, len)) => {
            let (_, rest) = digits.split_at(len);
            Some((number, rest))
        }
        None => None,
    }
}

/// Appends a space and a number. After a refusal a part of them may stand there.
pub fn push_item(out: &mut Vec<u8>, number: u64) -> Result<(), OutOfMemory>
    ensures { OnOk result (out.new.items ≡ out.old.items ++ 32 ∷ decimal number) }
{
    out.push(b' ')?;
    push_number(out, number)
}
