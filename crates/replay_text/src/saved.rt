ghost use Rattle.std.specs.Prelude.{◌≡◌};

use std::marker::Model;
use walk_rules::AskedList;

/// A saved run: the name of its scenario, and its entries. A contract sees both as lists.
#[derive(Debug, Drop)]
pub struct Saved {
    name: [u8; 32],
    asked: AskedList,
}

impl Model for Saved {
    ghost use Rattle.replay_text.specs.SavedRun.{SavedRun};

    ghost Value = { SavedRun };

    ghost view = { λ saved. record { name = saved.name; entries = saved.asked } };
}

impl Saved {
    /// The run of this name with these entries.
    pub fn new(name: [u8; 32], asked: AskedList) -> Saved
        ensures name { result.name ≡ name }
        ensures entries { result.entries ≡ asked }
    {
        Saved { name, asked }
    }

    /// The name of its scenario.
    pub fn name(&self) -> [u8; 32]
        ensures { result ≡ self.now.name }
    {
        self.name
    }

    /// Its entries.
    pub fn asked(&self) -> &AskedList
        ensures { result.now ≡ self.now.entries }
    {
        &self.asked
    }

    /// Its entries, without it.
    pub fn into_asked(self) -> AskedList
        ensures { result ≡ self.entries }
    {
        self.asked
    }
}
