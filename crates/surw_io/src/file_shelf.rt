// Trusted edge: no clause says that these calls reach the real files; a test shows it.
ghost use Rattle.std.specs.Prelude.{◌≡◌, ◌<◌, ◌≤◌, ℕ, List, None, length, drop, is_some, is_ok, IfOk, OnOk, OnErr, IsTrue};
ghost use Rattle.std.specs.Io.KnownBytes.{ReadConsumes, WriteAppends};
ghost use Rattle.surw_io.specs.Cause.{HasCause, one_more};
ghost use Rattle.surw_io.specs.FileShelf.{to_read, held};

use crate::whole_file::READ_SIZE;
use crate::{Failed, Shelf};
use std::fs;
use std::io::{Read, Write};
use std::marker::Model;
use std::rt::Files;

/// Real files. It tells nothing of what they hold, and counts as a fault each call that the system refused, and
/// each write that took nothing of some bytes.
#[derive(Drop)]
pub struct FileShelf<'a, R: Files> {
    rt: &'a R,
    file: Option<R::File>,
    // The file created last, held open.
    target: Option<R::File>,
    opens: u64,
    in_faults: u64,
    out_faults: u64,
}

impl<'a, R: Files> Model for FileShelf<'a, R> {
    ghost use Rattle.std.specs.Prelude.{option_map};
    ghost use Rattle.surw_io.specs.FileShelf.{FilesState};

    ghost Value = { FilesState };

    ghost view = { λ shelf. record {
      file = option_map (λ file. R.File.remaining file) shelf.file;
      target = option_map (λ file. R.File.contents file) shelf.target;
      opens = shelf.opens;
      in_faults = shelf.in_faults;
      out_faults = shelf.out_faults;
    } };
}

impl<'a, R: Files> FileShelf<'a, R> {
    /// A shelf of the runtime's files. Nothing is opened or created.
    pub fn new(rt: &'a R) -> FileShelf<'a, R>
        ensures { result ≡ record { file = None; target = None; opens = 0; in_faults = 0; out_faults = 0 } }
    {
        FileShelf {
            rt,
            file: None,
            target: None,
            opens: 0,
            in_faults: 0,
            out_faults: 0,
        }
    }
}

impl<'a, R: Files> Shelf for FileShelf<'a, R> {
    ghost use Rattle.std.specs.Prelude.{is_some};

    ghost coming = { λ _ _. None };

    ghost coming_after = { λ _ _. None };

    ghost left = { λ _. None };

    ghost opens = { λ shelf. shelf.opens };

    ghost in_faults = { λ shelf. shelf.in_faults };

    ghost made = { λ _. None };

    ghost ready = { λ shelf. is_some shelf.target };

    ghost out_faults = { λ shelf. shelf.out_faults };

    /// A file is open after `Ok`, and none after `Failed`.
    fn open(&mut self, name: &str) -> Result<(), Failed>
        ensures file { is_some self.new.file ≡ is_ok result }
        ensures opens { self.new.opens ≡ one_more self.old.opens }
        ensures target { self.new.target ≡ self.old.target }
        ensures out_faults { self.new.out_faults ≡ self.old.out_faults }
        ensures cause { HasCause self.old.in_faults self.new.in_faults result ⊥ }
    {
        self.opens = self.opens.saturating_add(1);
        self.file = None;
        match fs::open(self.rt, name) {
            Ok(file) => {
                self.file = Some(file);
                Ok(())
            }
            Err(_) => {
                self.in_faults = self.in_faults.saturating_add(1);
                Err(Failed)
            }
        }
    }

    /// Moves the bytes that the open file gives, and none where no file is open.
    // The bytes go through a buffer, since a real read may write behind those that it counts.
    fn read(&mut self, into: &mut [u8]) -> Result<usize, Failed>
        ensures within { IfOk result (λ n. n ≤ length into.old) }
        ensures bytes { ReadConsumes (to_read self.old.file) (to_read self.new.file) result into.new }
        ensures rest { IfOk result (λ n. drop n into.new ≡ drop n into.old) }
        ensures file { is_some self.new.file ≡ is_some self.old.file }
        ensures opens { self.new.opens ≡ self.old.opens }
        ensures target { self.new.target ≡ self.old.target }
        ensures out_faults { self.new.out_faults ≡ self.old.out_faults }
        ensures cause { HasCause self.old.in_faults self.new.in_faults result ⊥ }
    {
        let Some(file) = &mut self.file else {
            return Ok(0);
        };
        let mut buffer = [0; READ_SIZE];
        let asked = READ_SIZE.min(into.len());
        match file.read(&mut buffer[..asked]) {
            Ok(n) => {
                into[..n].copy_from_slice(&buffer[..n]);
                Ok(n)
            }
            Err(_) => {
                self.in_faults = self.in_faults.saturating_add(1);
                Err(Failed)
            }
        }
    }

    /// The created file is held open. After `Failed` the one created before still is.
    fn create(&mut self, name: &str) -> Result<(), Failed>
        ensures target { OnOk result (IsTrue (is_some self.new.target)) }
        ensures kept { OnErr result (self.new.target ≡ self.old.target) }
        ensures reads { (self.new.file ≡ self.old.file) × (self.new.opens ≡ self.old.opens) × (self.new.in_faults ≡ self.old.in_faults) }
        ensures cause { HasCause self.old.out_faults self.new.out_faults result ⊥ }
    {
        match fs::create(self.rt, name) {
            Ok(file) => {
                self.target = Some(file);
                Ok(())
            }
            Err(_) => {
                self.out_faults = self.out_faults.saturating_add(1);
                Err(Failed)
            }
        }
    }

    /// Writes the bytes that the created file takes.
    fn write(&mut self, piece: &[u8]) -> Result<usize, Failed>
        requires { IsTrue (is_some self.old.target) }
        ensures within { IfOk result (λ n. n ≤ length piece.now) }
        ensures some { IfOk result (λ n. 0 < length piece.now → 0 < n) }
        ensures bytes { WriteAppends (held self.old.target) (held self.new.target) result piece.now }
        ensures target { is_some self.new.target ≡ is_some self.old.target }
        ensures reads { (self.new.file ≡ self.old.file) × (self.new.opens ≡ self.old.opens) × (self.new.in_faults ≡ self.old.in_faults) }
        ensures cause { HasCause self.old.out_faults self.new.out_faults result ⊥ }
    {
        let Some(target) = &mut self.target else {
            unreachable!()
        };
        match target.write(piece) {
            Ok(n) if n > 0 || piece.is_empty() => Ok(n),
            _ => {
                self.out_faults = self.out_faults.saturating_add(1);
                Err(Failed)
            }
        }
    }
}

#[cfg(test)]
mod tests {
    use super::*;
    use crate::{FetchFault, fetch, put_file};
    use std::test::Fail;

    const NAME: &str = "surw_io_file_shelf_test";

    const NEW_NAME: &str = "surw_io_file_shelf_new";

    #[test]
    fn a_real_file_is_fetched(rt: HostRuntime) -> Result<(), Fail> {
        fs::write(&rt, NAME, b"order 1 1\n0 1\n".as_slice())?;
        let mut shelf = FileShelf::new(&rt);
        let fetched = fetch(rt.alloc(), &mut shelf, NAME, 100);
        let short = fetch(rt.alloc(), &mut shelf, NAME, 5);
        fs::remove_file(&rt, NAME)?;
        assert_eq!(rt; fetched?.as_slice(), b"order 1 1\n0 1\n".as_slice());
        assert_eq!(rt; short.err(), Some(FetchFault::TooLong { taken: 6 }));
        let gone = fetch(rt.alloc(), &mut shelf, NAME, 100);
        assert_eq!(rt; gone.err(), Some(FetchFault::Failed));
        // The rest of the file that was open before is gone too.
        assert_eq!(rt; shelf.read(&mut [0; 4]), Ok(0));
        assert_eq!(rt; (shelf.opens, shelf.in_faults), (3, 1));
        Ok(())
    }

    #[test]
    fn a_real_file_is_created_anew(rt: HostRuntime) -> Result<(), Fail> {
        let mut shelf = FileShelf::new(&rt);
        put_file(&mut shelf, NEW_NAME, b"order 2 1\n0 1 0\n")?;
        put_file(&mut shelf, NEW_NAME, b"order 1\n")?;
        // No file can be made where its folder isn't there, and the one made before still takes bytes.
        let nowhere = shelf.create("surw_io_no_such_folder/file");
        let more = shelf.write(b"0\n");
        let fetched = fetch(rt.alloc(), &mut shelf, NEW_NAME, 100);
        fs::remove_file(&rt, NEW_NAME)?;
        assert_eq!(rt; (nowhere, more), (Err(Failed), Ok(2)));
        assert_eq!(rt; fetched?.as_slice(), b"order 1\n0\n".as_slice());
        assert_eq!(rt; (shelf.in_faults, shelf.out_faults), (0, 1));
        Ok(())
    }
}
