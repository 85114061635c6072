ghost use Rattle.std.specs.Prelude.{◌≡◌, ◌++◌, ℕ, List, [], true, false, length, min, take, drop, IsOk, IfOk};
ghost use Rattle.surw_io.specs.Content.{File};
ghost use Rattle.surw_io.specs.SafeShelf.{opened};

use crate::{Failed, Shelf};
use std::marker::Model;

/// A shelf whose first open gives one text and each later one another, for every name. It takes every create and
/// each whole write, and tells nothing of them. No call fails.
#[derive(Drop)]
pub struct SafeShelf<'a> {
    first: &'a [u8],
    second: &'a [u8],
    left: &'a [u8],
    opens: u64,
    ready: bool,
}

impl<'a> Model for SafeShelf<'a> {
    ghost use Rattle.surw_io.specs.SafeShelf.{TextsState};

    ghost Value = { TextsState };

    ghost view = { λ shelf. record {
      first = shelf.first.now;
      second = shelf.second.now;
      left = shelf.left.now;
      opens = shelf.opens;
      ready = shelf.ready;
    } };
}

impl<'a> SafeShelf<'a> {
    /// A shelf of these two texts. Nothing is opened or created.
    pub fn new(first: &'a [u8], second: &'a [u8]) -> SafeShelf<'a>
        ensures coming { (name : List ℕ) → ⟦<SafeShelf<'a> as Shelf>⟧.coming result name ≡ Some (File first.entry.now) }
        ensures coming_after { (name : List ℕ) → ⟦<SafeShelf<'a> as Shelf>⟧.coming_after result name ≡ Some (File second.entry.now) }
        ensures left { ⟦<SafeShelf<'a> as Shelf>⟧.left result ≡ Some [] }
        ensures opens { ⟦<SafeShelf<'a> as Shelf>⟧.opens result ≡ 0 }
        ensures in_faults { ⟦<SafeShelf<'a> as Shelf>⟧.in_faults result ≡ 0 }
        ensures made { ⟦<SafeShelf<'a> as Shelf>⟧.made result ≡ None }
        ensures ready { ⟦<SafeShelf<'a> as Shelf>⟧.ready result ≡ false }
        ensures out_faults { ⟦<SafeShelf<'a> as Shelf>⟧.out_faults result ≡ 0 }
    {
        SafeShelf {
            first,
            second,
            left: &[],
            opens: 0,
            ready: false,
        }
    }
}

impl<'a> Shelf for SafeShelf<'a> {
    ghost use Rattle.std.specs.Prelude.{Some, None};
    ghost use Rattle.surw_io.specs.Content.{File};

    ghost coming = { λ shelf _. Some (File shelf.first) };

    ghost coming_after = { λ shelf _. Some (File shelf.second) };

    ghost left = { λ shelf. Some shelf.left };

    ghost opens = { λ shelf. shelf.opens };

    ghost in_faults = { λ _. 0 };

    ghost made = { λ _. None };

    ghost ready = { λ shelf. shelf.ready };

    ghost out_faults = { λ _. 0 };

    fn open(&mut self, _name: &str) -> Result<(), Failed>
        ensures ok { IsOk result }
        ensures after { self.new ≡ opened self.old }
    {
        self.opens = self.opens.saturating_add(1);
        self.left = self.first;
        self.first = self.second;
        Ok(())
    }

    fn read(&mut self, into: &mut [u8]) -> Result<usize, Failed>
        ensures ok { IsOk result }
        ensures gives { IfOk result (λ n. n ≡ min (length into.old) (length self.old.left)) }
        ensures moved { IfOk result (λ n. self.old.left ≡ take n into.new ++ self.new.left) }
        ensures rest { IfOk result (λ n. drop n into.new ≡ drop n into.old) }
        ensures after { self.new ≡ record self.old { left = self.new.left } }
    {
        let n = into.len().min(self.left.len());
        let (prefix, rest) = self.left.split_at(n);
        into[..n].copy_from_slice(prefix);
        self.left = rest;
        Ok(n)
    }

    fn create(&mut self, _name: &str) -> Result<(), Failed>
        ensures ok { IsOk result }
        ensures after { self.new ≡ record self.old { ready = true } }
    {
        self.ready = true;
        Ok(())
    }

    fn write(&mut self, piece: &[u8]) -> Result<usize, Failed>
        ensures ok { IsOk result }
        ensures gives { IfOk result (λ n. n ≡ length piece.now) }
        ensures after { self.new ≡ self.old }
    {
        Ok(piece.len())
    }
}

#[cfg(test)]
mod tests {
    use super::*;
    use crate::put_file;

    #[test]
    fn each_file_is_taken_whole(rt: HostRuntime) {
        let mut shelf = SafeShelf::new(b"first", b"second");
        assert_eq!(rt; shelf.create("any"), Ok(()));
        assert_eq!(rt; shelf.write(b"order 0 0 1\n"), Ok(12));
        assert_eq!(rt; put_file(&mut shelf, "other", b"order 0 0 1\n"), Ok(()));
    }
}
