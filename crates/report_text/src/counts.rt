ghost use Rattle.std.specs.Fmt.{decimal};
ghost use Rattle.std.specs.Prelude.{◌≡◌, ◌∷◌, [], ◌++◌, codes, length, OnOk};
ghost use Rattle.run_rules.specs.EventsMade.{selected_order};
ghost use Rattle.report_text.specs.Counts.{selected_count, forced_count, switches};
ghost use Rattle.surw_base.specs.Lines.{list_line, number_line};

use line_text::Line;
use pure_run::Run;
use run_rules::Entry;
use surw_base::{OutOfMemory, ThreadNo, push_list_line};

// Appends the lines of what is counted in a run.
pub(crate) fn push_counts(text: &mut Vec<u8>, run: &Run) -> Result<(), OutOfMemory>
    ensures { OnOk result (text.new.items ≡ text.old.items
        ++ number_line (codes "steps") (length run.now.journal)
        ++ number_line (codes "selected") (selected_count run.now.selection run.now.journal)
        ++ number_line (codes "forced") (forced_count run.now.journal)
        ++ number_line (codes "bent") run.now.bent
        ++ number_line (codes "switches") (switches run.now.journal)) }
{
    let journal = run.journal();
    push_list_line(text, b"steps", &[journal.len() as u64])?;
    push_list_line(text, b"selected", &[selected_count(run) as u64])?;
    push_list_line(text, b"forced", &[forced_count(journal) as u64])?;
    push_list_line(text, b"bent", &[run.bent()])?;
    push_list_line(text, b"switches", &[switches(journal) as u64])
}

// Appends the line of the threads of the selected entries.
#[tactic(auto, unfolding(surw_base::specs::Lines::list_line))]
pub(crate) fn push_order_line(text: &mut Vec<u8>, run: &Run) -> Result<(), OutOfMemory>
    ensures { OnOk result (text.new.items
        ≡ text.old.items ++ list_line (codes "order") (selected_order run.now.selection run.now.journal)) }
{
    text.extend_from_slice(b"order")?;
    let mut line = Line::new();
    for (k, entry) in run.journal().iter().enumerate() {
        let chosen = run.selected(k as u32);
        if chosen {
            push_thread(text, &mut line, entry.thread)?;
        }
    }
    text.push(b'\n')?;
    Ok(())
}

// Appends a space and the number of a thread, which are made in this line.
fn push_thread(text: &mut Vec<u8>, line: &mut Line, thread: ThreadNo) -> Result<(), OutOfMemory>
    ensures { OnOk result (text.new.items ≡ text.old.items ++ 32 ∷ decimal thread) }
{
    line.clear();
    line.put_number(u64::from(thread.get()));
    line.put(b" ");
    text.extend_from_slice(line.as_slice())?;
    Ok(())
}

// How many entries are selected.
fn selected_count(run: &Run) -> usize
    ensures { result ≡ selected_count run.now.selection run.now.journal }
{
    let mut count = 0;
    for k in 0..run.journal().len() {
        count += usize::from(run.selected(k as u32));
    }
    count
}

// How many entries are forced.
#[tactic(auto, unfolding(crate::specs::Counts::forced_count))]
fn forced_count(journal: &[Entry]) -> usize
    ensures { result ≡ forced_count journal.now }
{
    journal.iter().filter(|entry| entry.forced).count()
}

// How many entries have another thread than the entry before.
#[tactic(auto, unfolding(crate::specs::Counts::switches))]
fn switches(journal: &[Entry]) -> usize
    ensures { result ≡ switches journal.now }
{
    let after = journal.iter().skip(1);
    journal
        .iter()
        .zip(after)
        .filter(|(before, entry)| before.thread != entry.thread)
        .count()
}

#[cfg(test)]
mod tests;
