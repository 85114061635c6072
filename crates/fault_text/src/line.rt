ghost use Rattle.std.specs.Prelude.{◌≡◌, OnOk, OnErr};
ghost use Rattle.surw_io.specs.Cause.{HasCause};
ghost use Rattle.surw_io.specs.Content.{with_end, HoldsPrefix};
ghost use Rattle.fault_text.specs.Item.{item_line};

use crate::item::Item;
use surw_io::{Failed, Sink, put_all};

// Writes the line of a word and then items. After `Failed`, which comes only where the sink's faults rose, a
// prefix of the line was taken.
pub(crate) fn put_line<O: Sink>(out: &mut O, word: &[u8], items: &[Item]) -> Result<(), Failed>
    ensures all { OnOk result (O.taken out.new ≡ with_end (O.taken out.old) (item_line word.now items.now)) }
    ensures prefix { OnErr result (HoldsPrefix (O.taken out.old) (item_line word.now items.now) (O.taken out.new)) }
    ensures cause { HasCause (O.faults out.old) (O.faults out.new) result ⊥ }
{
    put_all(out, word)?;
    for item in items {
        item.put(out)?;
    }
    put_all(out, b"\n")
}
