ghost use Rattle.std.specs.Prelude.{◌≡◌};
ghost use Rattle.surw_io.specs.Calls.{is_listed};

// Whether the call of this number is listed to fail.
pub(crate) fn is_listed(fails: &[u32], call: u64) -> bool
    ensures { result ≡ is_listed fails.now call }
{
    fails.iter().any(|number| u64::from(*number) == call)
}
