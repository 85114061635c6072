ghost use Rattle.std.specs.Prelude.{◌≡◌, ◌++◌, OnOk};
ghost use Rattle.std.specs.Str.{bytes_eq};
ghost use Rattle.surw_base.specs.Lines.{line};
ghost use Rattle.replay_text.specs.SavedText.{end_text};

use surw_base::{OutOfMemory, digits_of, push_number};

// Appends the line of the end behind so many entries. After a refusal a part of it may stand there.
pub(crate) fn push_end(out: &mut Vec<u8>, count: u32) -> Result<(), OutOfMemory>
    ensures { OnOk result (out.new.items ≡ out.old.items ++ line (end_text count)) }
{
    out.extend_from_slice(b"end ")?;
    push_number(out, u64::from(count))?;
    out.push(b'\n')?;
    Ok(())
}

// Whether a line is that of the end behind so many entries.
pub(crate) fn is_end(line: &[u8], count: u32) -> bool
    ensures { result ≡ bytes_eq line.now (end_text count) }
{
    match line.strip_prefix(b"end ") {
        Some(written) => {
            let (digits, width) = digits_of(u64::from(count));
            written == &digits[..width]
        }
        None => false,
    }
}
