ghost use Rattle.std.specs.Prelude.{◌≡◌, ◌≤◌, ◌<◌, ◌↔◌, true, false, [], ◌++◌, length, take, drop, is_some, IfOk, OnErr, IsNone, IsTrue, MatchResult, MatchOption};
ghost use Rattle.surw_io.specs.Calls.{is_listed};
ghost use Rattle.surw_io.specs.Cause.{HasCause, one_more};
ghost use Rattle.surw_io.specs.Made.{nothing_made};
ghost use Rattle.surw_io.specs.MemShelf.{named_bytes, file_of, bytes_at, left_at, IsPlace, open_gives, read_gives, faults_after, opened, read_on, create_fails, write_gives, started, wrote, refused};

use crate::calls::is_listed;
use crate::made_file::{MadeFile, NAME_ROOM};
use crate::{Failed, Shelf};
use std::alloc::Global;
use std::marker::Model;
use surw_base::OutOfMemory;

/// A shelf of files in memory, and of the one that was created last, which no open gives. Its calls are numbered
/// together from 0, opens, reads, creates and writes alike; those that are listed fail.
#[derive(Drop)]
pub struct MemShelf {
    files: Vec<(String, Vec<u8>)>,
    // The place of the opened file, and how many of its bytes are left.
    opened: Option<usize>,
    left: usize,
    made: MadeFile,
    piece: usize,
    fails: Vec<u32>,
    calls: u64,
    in_faults: u64,
    out_faults: u64,
    opens: u64,
}

impl Model for MemShelf {
    ghost use Rattle.std.specs.Prelude.{◌<◌};
    ghost use Rattle.surw_io.specs.MemShelf.{ShelfState, named_bytes, left_at, IsPlace};

    ghost Value = { ShelfState };

    ghost view = { λ shelf. record {
      files = named_bytes shelf.files.items;
      left = left_at (named_bytes shelf.files.items) shelf.opened shelf.left;
      made = shelf.made.made;
      room = shelf.made.room;
      piece = shelf.piece;
      fails = shelf.fails.items;
      calls = shelf.calls;
      in_faults = shelf.in_faults;
      out_faults = shelf.out_faults;
      opens = shelf.opens;
    } };

    ghost invariant = { λ shelf. (0 < shelf.piece) × IsPlace (named_bytes shelf.files.items) shelf.opened shelf.left };
}

impl MemShelf {
    /// A shelf of these files, of which a read or a write moves at most `piece` bytes. Of two files of one name
    /// it is the first that is opened. A created file has a name of at most 4,096 bytes and at most `room` bytes,
    /// whose memory is taken here.
    pub fn new(
        alloc: Global,
        files: Vec<(String, Vec<u8>)>,
        room: usize,
        piece: usize,
        fails: Vec<u32>,
    ) -> Result<MemShelf, OutOfMemory>
        requires { 1 ≤ piece }
        ensures { IfOk result (λ shelf. shelf ≡ record {
          files = named_bytes files.items;
          left = [];
          made = nothing_made;
          room = room;
          piece = piece;
          fails = fails.items;
          calls = 0;
          in_faults = 0;
          out_faults = 0;
          opens = 0;
        }) }
    {
        let made = MadeFile::new(alloc, room)?;
        Ok(MemShelf {
            files,
            opened: None,
            left: 0,
            made,
            piece,
            fails,
            calls: 0,
            in_faults: 0,
            out_faults: 0,
            opens: 0,
        })
    }

    /// The bytes of the name of the file created last, and the bytes written to it.
    pub fn made(&self) -> Option<(&[u8], &[u8])>
        ensures nothing { IsNone result ↔ (self.now.made.creates ≡ 0) }
        ensures file { MatchOption result
            (self.now.made.last ≡ None)
            (λ file. self.now.made.last ≡ Some (record { name = file.0.now; bytes = file.1.now })) }
    {
        self.made.parts()
    }

    // Counts a call, and answers whether it is listed to fail.
    fn next_fails(&mut self) -> bool
        ensures answer { result ≡ is_listed self.old.fails self.old.calls }
        ensures counted { self.new ≡ record self.old { calls = one_more self.old.calls } }
    {
        let fails = is_listed(&self.fails, self.calls);
        self.calls = self.calls.saturating_add(1);
        fails
    }

    // Counts an open or a read, and a fault where it is listed to fail.
    fn begin(&mut self) -> Result<(), Failed>
        ensures answer { MatchResult result
            (λ _. is_listed self.old.fails self.old.calls ≡ false)
            (λ _. is_listed self.old.fails self.old.calls ≡ true) }
        ensures counted { self.new ≡ record self.old {
          calls = one_more self.old.calls;
          in_faults = faults_after self.old;
        } }
        ensures cause { HasCause self.old.in_faults self.new.in_faults result ⊥ }
    {
        if self.next_fails() {
            self.in_faults = self.in_faults.saturating_add(1);
            return Err(Failed);
        }
        Ok(())
    }
}

impl Shelf for MemShelf {
    ghost use Rattle.std.specs.Prelude.{Some, is_some};
    ghost use Rattle.surw_io.specs.MemShelf.{file_of, entry};

    ghost coming = { λ shelf name. Some (entry (file_of shelf.files name)) };

    ghost coming_after = { λ shelf name. Some (entry (file_of shelf.files name)) };

    ghost left = { λ shelf. Some shelf.left };

    ghost opens = { λ shelf. shelf.opens };

    ghost in_faults = { λ shelf. shelf.in_faults };

    ghost made = { λ shelf. Some shelf.made };

    ghost ready = { λ shelf. is_some shelf.made.last };

    ghost out_faults = { λ shelf. shelf.out_faults };

    /// Fails where the call is listed or no file has the name. Nothing is left after that.
    fn open(&mut self, name: &str) -> Result<(), Failed>
        ensures gives { MatchResult result
            (λ _. open_gives self.old name.now ≡ Some self.new.left)
            (λ _. open_gives self.old name.now ≡ None) }
        ensures after { self.new ≡ opened self.old self.new.left }
        ensures nothing { OnErr result (self.new.left ≡ []) }
        ensures cause { HasCause self.old.in_faults self.new.in_faults result (file_of self.old.files name.now ≡ None) }
    {
        self.opens = self.opens.saturating_add(1);
        self.opened = None;
        self.left = 0;
        self.begin()?;
        match place_of(&self.files, name) {
            Some(place) => {
                self.opened = Some(place);
                self.left = self.files[place].1.len();
                Ok(())
            }
            None => Err(Failed),
        }
    }

    /// Moves at most `piece` bytes. Fails where the call is listed, and only there.
    fn read(&mut self, into: &mut [u8]) -> Result<usize, Failed>
        ensures gives { MatchResult result
            (λ n. read_gives self.old (length into.old) ≡ Some n)
            (λ _. read_gives self.old (length into.old) ≡ None) }
        ensures after { self.new ≡ read_on self.old self.new.left }
        ensures moved { IfOk result (λ n. self.old.left ≡ take n into.new ++ self.new.left) }
        ensures rest { IfOk result (λ n. drop n into.new ≡ drop n into.old) }
        ensures end { IfOk result (λ n. 0 < length into.old → n ≡ 0 → self.old.left ≡ []) }
        ensures kept { OnErr result (self.new.left ≡ self.old.left) }
        ensures untouched { OnErr result (into.new ≡ into.old) }
        ensures cause { HasCause self.old.in_faults self.new.in_faults result ⊥ }
    {
        self.begin()?;
        let n = into.len().min(self.piece).min(self.left);
        let rest = rest_of(&self.files, self.opened, self.left);
        into[..n].copy_from_slice(&rest[..n]);
        self.left -= n;
        Ok(n)
    }

    /// Fails where the call is listed or the name is longer than 4,096 bytes, and only there.
    fn create(&mut self, name: &str) -> Result<(), Failed>
        ensures gives { MatchResult result
            (λ _. create_fails self.old name.now ≡ false)
            (λ _. create_fails self.old name.now ≡ true) }
        ensures after { MatchResult result
            (λ _. self.new ≡ started self.old name.now)
            (λ _. self.new ≡ refused self.old) }
        ensures cause { HasCause self.old.out_faults self.new.out_faults result ⊥ }
    {
        if self.next_fails() || name.len() > NAME_ROOM {
            self.out_faults = self.out_faults.saturating_add(1);
            return Err(Failed);
        }
        self.made.start(name);
        Ok(())
    }

    /// Takes at most `piece` bytes, and no more than what is left of the room. Fails where the call is listed,
    /// and where no room is left and the piece isn't empty.
    fn write(&mut self, piece: &[u8]) -> Result<usize, Failed>
        requires { IsTrue (is_some self.old.made.last) }
        ensures gives { MatchResult result
            (λ n. write_gives self.old (length piece.now) ≡ Some n)
            (λ _. write_gives self.old (length piece.now) ≡ None) }
        ensures after { MatchResult result
            (λ n. self.new ≡ wrote self.old (take n piece.now))
            (λ _. self.new ≡ refused self.old) }
        ensures some { IfOk result (λ n. 0 < length piece.now → 0 < n) }
        ensures cause { HasCause self.old.out_faults self.new.out_faults result ⊥ }
    {
        let fails = self.next_fails();
        let left = self.made.room_left();
        if fails || (left == 0 && !piece.is_empty()) {
            self.out_faults = self.out_faults.saturating_add(1);
            return Err(Failed);
        }
        let n = piece.len().min(self.piece).min(left);
        self.made.push(&piece[..n]);
        Ok(n)
    }
}

// The place of the first file of a name.
fn place_of(files: &[(String, Vec<u8>)], name: &str) -> Option<usize>
    ensures { MatchOption result
        (file_of (named_bytes files.now) name.now ≡ None)
        (λ place. (place < length files.now) × (file_of (named_bytes files.now) name.now ≡ Some (bytes_at (named_bytes files.now) place))) }
{
    for (place, file) in files.iter().enumerate() {
        if file.0.as_str() == name {
            return Some(place);
        }
    }
    None
}

// The last bytes of the opened file, of which so many are left.
fn rest_of(files: &[(String, Vec<u8>)], opened: Option<usize>, left: usize) -> &[u8]
    requires { IsPlace (named_bytes files.now) opened left }
    ensures rest { result.now ≡ left_at (named_bytes files.now) opened left }
    ensures length { length result.now ≡ left }
{
    match opened {
        Some(place) => {
            let bytes = files[place].1.as_slice();
            &bytes[bytes.len() - left..]
        }
        None => &[],
    }
}

#[cfg(test)]
mod tests;
