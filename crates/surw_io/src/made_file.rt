ghost use Rattle.std.specs.Prelude.{◌≡◌, ◌≤◌, ◌↔◌, [], length, is_some, IfOk, IsNone, IsTrue, MatchOption};
ghost use Rattle.surw_io.specs.Made.{nothing_made, file_made, more_made};
ghost use Rattle.surw_io.specs.MadeFile.{name_room, room_left};

use std::alloc::Global;
use std::marker::Model;
use surw_base::OutOfMemory;

// The most bytes of a created file's name.
pub(crate) const NAME_ROOM: usize = 4_096;

// The file that was created last, and how many were. All its memory is taken at the start.
#[derive(Drop)]
pub(crate) struct MadeFile {
    name: Vec<u8>,
    bytes: Vec<u8>,
    room: usize,
    creates: u64,
}

impl Model for MadeFile {
    ghost use Rattle.std.specs.Prelude.{◌≤◌, vec_len, vec_capacity};
    ghost use Rattle.surw_io.specs.MadeFile.{MadeInRoom, name_room, made_of};

    ghost Value = { MadeInRoom };

    ghost view = { λ file. record {
      made = made_of file.creates file.name.items file.bytes.items;
      room = file.room;
    } };

    ghost invariant = { λ file. (name_room ≤ vec_capacity file.name) × (vec_len file.bytes ≤ file.room) × (file.room ≤ vec_capacity file.bytes) };
}

impl MadeFile {
    pub(crate) fn new(alloc: Global, room: usize) -> Result<MadeFile, OutOfMemory>
        ensures { IfOk result (λ file. file ≡ record { made = nothing_made; room = room }) }
    {
        let name = Vec::with_capacity(alloc, NAME_ROOM)?;
        let bytes = Vec::with_capacity(alloc, room)?;
        Ok(MadeFile {
            name,
            bytes,
            room,
            creates: 0,
        })
    }

    // Makes the empty file of a name.
    pub(crate) fn start(&mut self, name: &str)
        requires { length name.now ≤ name_room }
        ensures { self.new ≡ record self.old { made = file_made self.old.made name.now [] } }
    {
        self.name.clear();
        self.bytes.clear();
        if self.name.extend_from_slice(name.as_bytes()).is_err() {
            unreachable!();
        }
        self.creates = self.creates.saturating_add(1);
    }

    // The bytes that the file can still take.
    pub(crate) fn room_left(&self) -> usize
        requires { IsTrue (is_some self.now.made.last) }
        ensures { result ≡ room_left self.now.room self.now.made }
    {
        self.room - self.bytes.len()
    }

    // Takes these bytes behind those that it has.
    pub(crate) fn push(&mut self, piece: &[u8])
        requires made { IsTrue (is_some self.old.made.last) }
        requires fits { length piece.now ≤ room_left self.old.room self.old.made }
        ensures { self.new ≡ record self.old { made = more_made self.old.made piece.now } }
    {
        if self.bytes.extend_from_slice(piece).is_err() {
            unreachable!();
        }
    }

    // The bytes of its name, and its bytes.
    pub(crate) fn parts(&self) -> Option<(&[u8], &[u8])>
        ensures nothing { IsNone result ↔ (self.now.made.creates ≡ 0) }
        ensures file { MatchOption result
            (self.now.made.last ≡ None)
            (λ file. self.now.made.last ≡ Some (record { name = file.0.now; bytes = file.1.now })) }
    {
        if self.creates == 0 {
            return None;
        }
        Some((self.name.as_slice(), self.bytes.as_slice()))
    }
}
