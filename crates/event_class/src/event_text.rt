ghost use Rattle.std.specs.Prelude.{◌≡◌, ℕ, ◌+◌, List, ◌++◌, ◌≤◌, Some, length, take, drop, IsTrue, IfSome, IfNone, OnOk, OnErr, MatchOption, nat_eq};
ghost use Rattle.std.specs.List.{starts_with};
ghost use Rattle.surw_base.specs.Prefix.{IsLongestPrefix, HasNoPrefix};
ghost use Rattle.line_text.specs.declared.line.TheConstants.{LINE_ROOM};
ghost use Rattle.event_class.specs.Event.{verb_of, numbers_of, event_text, AreSmall, AreNumbersText, IsEventText, IsPrinted};

use crate::Event;
use crate::event::FORMS;
use line_text::Line;
use surw_base::{OutOfMemory, read_number};

/// The most bytes of an event's text: a verb of 7 bytes, and three numbers with a space and 20 digits each.
pub const EVENT_ROOM: usize = 70;

/// Appends the text of an event. After a refusal the vector is unchanged.
pub fn push_event(out: &mut Vec<u8>, event: &Event) -> Result<(), OutOfMemory>
    ensures ok { OnOk result (out.new.items ≡ out.old.items ++ event_text event.now) }
    ensures err { OnErr result (out.new.items ≡ out.old.items) }

    // What a caller needs to know of the event so that its text is read again.
    ensures below { AreSmall (numbers_of event.now) }
{
    let mut line = Line::new();
    put_event(&mut line, event);
    out.extend_from_slice(line.as_slice())?;
    Ok(())
}

/// Puts the text of an event before what the line has.
pub fn put_event(line: &mut Line, event: &Event)
    requires { EVENT_ROOM + length line.old ≤ LINE_ROOM }
    ensures text { line.new ≡ event_text event.now ++ line.old }
    ensures short { length line.new ≤ EVENT_ROOM + length line.old }

    // What a caller needs to know of the event so that its text is read again.
    ensures below { AreSmall (numbers_of event.now) }
{
    let (numbers, count) = event.numbers();
    for i in (0..count).rev() {
        line.put_number(numbers[i]);
        line.put(b" ");
    }
    line.put(event.verb());
}

/// The longest prefix of a text that is an event's text: the event, and how many bytes it has. None exactly
/// where no prefix is one.
pub fn read_event(text: &[u8]) -> Option<(Event, usize)>
    ensures prefix { MatchOption result
        (HasNoPrefix IsEventText text.now)
        (λ found. IsLongestPrefix IsEventText text.now found.0 found.1) }

    // A printed event before the end or a byte that isn't a digit is read again.
    ensures again { (event : Event) (tail : List ℕ) → IsPrinted text.now event tail →
        result ≡ Some (event, length (event_text event)) }
{
    let Some(form) = form_of(text) else {
        return None;
    };
    let verb = form.verb().len();
    let (_, count) = form.numbers();
    let (_, after) = text.split_at(verb);
    match read_numbers(after, count) {
        None => None,
        Some(found) => {
            let ([i, j, k], len) = found;
            Some((form.with(i, j, k), verb + len))
        }
    }
}

// An event of the kind whose verb begins the text.
fn form_of(text: &[u8]) -> Option<Event>
    ensures found { IfSome result (λ form. IsTrue (starts_with nat_eq text.now (verb_of form))) }
    ensures none { IfNone result ((event : Event) → IsTrue (starts_with nat_eq text.now (verb_of event)) → ⊥) }
{
    for form in &FORMS {
        if text.starts_with(form.verb()) {
            return Some(*form);
        }
    }
    None
}

// So many numbers at the front of a text, each behind a space, and how many bytes they have.
fn read_numbers(text: &[u8], count: usize) -> Option<([u64; 3], usize)>
    requires { count ≤ 3 }
    ensures { MatchOption result
        (HasNoPrefix (AreNumbersText count) text.now)
        (λ found. IsLongestPrefix (AreNumbersText count) text.now (take count found.0) found.1) }
{
    let mut numbers = [0; 3];
    let mut len = 0;
    for i in 0..count {
        if len == text.len() || text[len] != b' ' {
            return None;
        }
        let (_, after) = text.split_at(len + 1);
        match read_number(after) {
            None => return None,
            Some((number, width)) => {
                numbers[i] = number;
                len += 1 + width;
            }
        }
    }
    Some((numbers, len))
}

#[cfg(test)]
mod tests;
