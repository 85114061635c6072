//! What holds of every plan. A law does nothing when it is called: its contract is the law.

ghost use Rattle.std.specs.Prelude.{ℕ};
ghost use Rattle.run_rules.specs.Setup.{Script};
ghost use Rattle.pure_run.specs.Profile.{OneProfile};

pub use run_rules::laws::{one_outcome, one_run};
pub use selected_order::laws::{every_order, surw_is_urw};

/// No two answers of a profile differ, want of memory aside, whatever the script: its counts are one, it has no counts
/// where its run stops for another cause, and that cause is one.
pub fn one_profile()
    ensures { (script : Script) (seed : ℕ) → OneProfile script seed }
{}
