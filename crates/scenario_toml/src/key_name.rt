ghost use Rattle.std.specs.Prelude.{◌≡◌, ◌++◌, IfOk};
ghost use Rattle.scenario_toml.specs.Keys.{key_at};

use std::alloc::Global;
use std::marker::Model;
use surw_base::{OutOfMemory, push_number};

/// The name of a key of a scenario file, as `world.cells` or `thread.1.lines.0`. A contract sees its bytes.
#[derive(Debug, Drop)]
pub struct KeyName {
    bytes: Vec<u8>,
}

impl Model for KeyName {
    ghost use Rattle.std.specs.Prelude.{ℕ, List};

    ghost Value = { List ℕ };

    ghost view = { λ key. key.bytes.items };
}

impl KeyName {
    /// The name of a key in a table, behind the table's path. An error comes only where memory is refused.
    pub(crate) fn new(alloc: Global, path: &[u8], name: &str) -> Result<KeyName, OutOfMemory>
        ensures { IfOk result (λ key. key ≡ path.now ++ name.now) }
    {
        let mut bytes = Vec::from_slice(alloc, path)?;
        bytes.extend_from_slice(name.as_bytes())?;
        Ok(KeyName { bytes })
    }

    /// The name of an item of this array. An error comes only where memory is refused.
    pub(crate) fn at(&self, alloc: Global, place: usize) -> Result<KeyName, OutOfMemory>
        ensures { IfOk result (λ key. key ≡ key_at self.now place) }
    {
        let mut bytes = Vec::from_slice(alloc, self.bytes.as_slice())?;
        bytes.push(b'.')?;
        push_number(&mut bytes, place as u64)?;
        Ok(KeyName { bytes })
    }

    /// Its bytes.
    pub fn as_bytes(&self) -> &[u8]
        ensures { result.now ≡ self.now }
    {
        self.bytes.as_slice()
    }
}
