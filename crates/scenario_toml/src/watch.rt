ghost use Rattle.std.specs.Prelude.{ℕ, ◌≡◌, ◌++◌, codes, IfOk, IfSome, Some};
ghost use Rattle.scenario_toml.specs.declared.watch.Watch.{Watch};
ghost use Rattle.scenario_toml.specs.declared.watch.Watch.TheVariants.{CellEnd};
ghost use Rattle.scenario_toml.specs.WatchText.{IsWatchText, AreTwoNumbers};
ghost use Rattle.scenario_toml.specs.Texts.{watch_of, watch_text};

use std::alloc::Global;
use surw_base::{OutOfMemory, push_number, read_number, read_whole_number};

/// What a file says is watched for. The cell need not be there.
#[derive(Clone, Copy, Debug, PartialEq, Eq)]
pub(crate) enum Watch {
    /// The stamps on the disk.
    WriteAhead,
    /// The slots of the log.
    LogWhole,
    /// The checks.
    Expect,
    /// A cell's value at the end.
    CellEnd {
        /// The number of the cell.
        cell: u64,
        /// The value that it should have.
        value: u64,
    },
}

impl Watch {
    // What a whole text says.
    pub(crate) fn of(text: &[u8]) -> Option<Watch>
        ensures { result ≡ watch_of text.now }
    {
        read_watch(text)
    }

    // Its text.
    pub(crate) fn text(&self, alloc: Global) -> Result<Vec<u8>, OutOfMemory>
        ensures { IfOk result (λ text. text.items ≡ watch_text self.now) }
    {
        match *self {
            Watch::WriteAhead => Ok(Vec::from_slice(alloc, b"write_ahead")?),
            Watch::LogWhole => Ok(Vec::from_slice(alloc, b"log_whole")?),
            Watch::Expect => Ok(Vec::from_slice(alloc, b"expect")?),
            Watch::CellEnd { cell, value } => {
                let mut text = Vec::from_slice(alloc, b"cell_end ")?;
                push_number(&mut text, cell)?;
                text.push(b' ')?;
                push_number(&mut text, value)?;
                Ok(text)
            }
        }
    }
}

// What a whole text says.
fn read_watch(text: &[u8]) -> Option<Watch>
    ensures found { IfSome result (IsWatchText text.now) }
    ensures only { (watch : Watch) → IsWatchText text.now watch → result ≡ Some watch }
{
    if text == b"write_ahead".as_slice() {
        return Some(Watch::WriteAhead);
    }
    if text == b"log_whole".as_slice() {
        return Some(Watch::LogWhole);
    }
    if text == b"expect".as_slice() {
        return Some(Watch::Expect);
    }
    if !text.starts_with(b"cell_end ") {
        return None;
    }
    let (_, numbers) = text.split_at(9);
    cell_end(numbers)
}

// The end of a cell with these two numbers.
fn cell_end(text: &[u8]) -> Option<Watch>
    ensures found { IfSome result (λ watch. IsWatchText (codes "cell_end " ++ text.now) watch) }
    ensures only { (cell value : ℕ) → AreTwoNumbers text.now cell value → result ≡ Some (CellEnd cell value) }
{
    let Some((cell, len)) = read_number(text) else {
        return None;
    };
    if len == text.len() || text[len] != b' ' {
        return None;
    }
    let (_, digits) = text.split_at(len + 1);
    match read_whole_number(digits) {
        Some(value) => Some(Watch::CellEnd { cell, value }),
        None => None,
    }
}
