ghost use Rattle.std.specs.Prelude.{◌≡◌, ◌+◌, ◌≤◌, ◌∷◌, ◌++◌, length, unsigned_abs, OnOk, OnErr};
ghost use Rattle.std.specs.Fmt.{decimal, signed_decimal};
ghost use Rattle.surw_io.specs.Cause.{HasCause};
ghost use Rattle.surw_io.specs.Content.{with_end, HoldsPrefix};
ghost use Rattle.fault_text.specs.Item.{item_text};

use arrayvec::ArrayVec;
use surw_base::digits_of;
use surw_io::{Failed, Sink, put_all};

// The room for a space, a sign and at most 20 digits.
const NUMBER_ROOM: usize = 22;

// What stands behind a space in a line.
#[derive(Clone, Copy, Debug)]
pub(crate) enum Item<'a> {
    Text(&'a [u8]),
    Number(u64),
    Signed(i64),
}

impl Item<'_> {
    // Writes a space and the item.
    pub(crate) fn put<O: Sink>(&self, out: &mut O) -> Result<(), Failed>
        ensures all { OnOk result (O.taken out.new ≡ with_end (O.taken out.old) (32 ∷ item_text self.now)) }
        ensures prefix { OnErr result (HoldsPrefix (O.taken out.old) (32 ∷ item_text self.now) (O.taken out.new)) }
        ensures cause { HasCause (O.faults out.old) (O.faults out.new) result ⊥ }
    {
        match *self {
            Item::Text(text) => {
                put_all(out, b" ")?;
                put_all(out, text)
            }
            Item::Number(number) => put_all(out, number_text(b"", number).as_slice()),
            Item::Signed(number) => put_all(
                out,
                number_text(sign_of(number), number.unsigned_abs()).as_slice(),
            ),
        }
    }
}

// What stands before a number's digits.
fn sign_of(number: i64) -> &'static [u8]
    ensures sign { result.now ++ decimal (unsigned_abs number) ≡ signed_decimal number }
    ensures short { length result.now ≤ 1 }
{
    if number < 0 { b"-" } else { b"" }
}

// A space, a sign and the digits of a number.
fn number_text(sign: &[u8], number: u64) -> ArrayVec<u8, NUMBER_ROOM>
    requires { length sign.now ≤ 1 }
    ensures { result.items ≡ 32 ∷ (sign.now ++ decimal number) }
{
    let (digits, len) = digits_of(number);
    let mut text = ArrayVec::new();
    text.push(b' ');
    push_bytes(&mut text, sign);
    push_bytes(&mut text, &digits[..len]);
    text
}

// Appends bytes for which there is room.
fn push_bytes(text: &mut ArrayVec<u8, NUMBER_ROOM>, bytes: &[u8])
    requires { length text.old.items + length bytes.now ≤ NUMBER_ROOM }
    ensures { text.new.items ≡ text.old.items ++ bytes.now }
{
    match text.try_extend_from_slice(bytes) {
        Ok(()) => {}
        Err(_) => unreachable!(),
    }
}
