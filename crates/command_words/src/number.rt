ghost use Rattle.std.specs.Prelude.{◌≡◌, ◌↔◌, EachIndex, IsTrue, slice_index};
ghost use Rattle.std.specs.Int.{IsInRange};
ghost use Rattle.command_words.specs.Number.{depth_of, number_of};

use surw_base::DEPTH;

// The most digits of a number, leading zeros among them.
const DIGITS: usize = 20;

// The least depth.
const LEAST: u64 = 1;

// The number that a text writes. None exactly where it writes none.
pub(crate) fn read_number(text: &str) -> Option<u64>
    ensures { result ≡ number_of text.now }
{
    if text.len() > DIGITS || !are_digits(text) {
        return None;
    }
    text.parse().ok()
}

// Whether each byte of a text is a digit.
fn are_digits(text: &str) -> bool
    ensures { IsTrue result ↔ EachIndex text.now (λ place. IsInRange 48 57 (slice_index text.now place)) }
{
    text.as_bytes().iter().all(|byte| byte.is_ascii_digit())
}

// The depth that a text writes. None exactly where it writes none.
pub(crate) fn read_depth(text: &str) -> Option<u8>
    ensures { result ≡ depth_of text.now }
{
    let number = read_number(text)?;
    if number < LEAST || number > u64::from(DEPTH) {
        return None;
    }
    Some(number as u8)
}
