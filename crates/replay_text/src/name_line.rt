ghost use Rattle.std.specs.Prelude.{◌≡◌, ◌≤◌, ◌*◌, ◌++◌, ℕ, List, length, IfSome, OnOk, Some};
ghost use Rattle.hex.specs.Hex.{decode_of, encode_lower};
ghost use Rattle.surw_base.specs.Lines.{line};
ghost use Rattle.replay_text.specs.NameOf.{name_of};
ghost use Rattle.replay_text.specs.SavedRun.{IsName};
ghost use Rattle.replay_text.specs.SavedText.{name_text};

use hex::{decode_to_slice, encode_to_slice};
use surw_base::OutOfMemory;

// Appends the line of a name. After a refusal a part of it may stand there.
pub(crate) fn push_name(out: &mut Vec<u8>, name: [u8; 32]) -> Result<(), OutOfMemory>
    ensures ok { OnOk result (out.new.items ≡ out.old.items ++ line (name_text name)) }
    ensures fits { IsName name }
{
    out.extend_from_slice(b"scenario ")?;
    out.extend_from_slice(&name_digits(name))?;
    out.push(b'\n')?;
    Ok(())
}

// The name that a line gives. None where it gives none.
pub(crate) fn read_name(line: &[u8]) -> Option<[u8; 32]>
    ensures { result ≡ name_of line.now }
{
    let digits = match line.strip_prefix(b"scenario ") {
        Some(digits) => digits,
        None => return None,
    };
    match decoded(digits) {
        Some(name) => {
            if digits != name_digits(name).as_slice() {
                return None;
            }
            Some(name)
        }
        None => None,
    }
}

/// The hexadecimal digits of a name, in lower case.
pub fn name_digits(name: [u8; 32]) -> [u8; 64]
    ensures { result ≡ encode_lower name }
{
    let mut digits = [0; 64];
    encode_to_slice(name.as_slice(), &mut digits).unwrap();
    digits
}

// The name that hexadecimal digits write, in either case.
fn decoded(digits: &[u8]) -> Option<[u8; 32]>
    ensures found { IfSome result (λ name. decode_of digits.now ≡ Ok name) }
    ensures long { IfSome result (λ name. length name ≡ 32) }
    ensures only { (name : List ℕ) → length name ≡ 32 → decode_of digits.now ≡ Ok name → result ≡ Some name }
{
    let mut name = [0; 32];
    match decode_to_slice(digits, &mut name) {
        Ok(()) => Some(name),
        Err(_) => None,
    }
}
