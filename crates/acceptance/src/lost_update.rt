use crate::command::job_of_text;
use std::test::Fail;
use surw_cli::Status;

// Two threads that each load a cell, add one to what they loaded, and store it.
pub const LOST_UPDATE: &str = "\
select = [\"cell\"]
counts = [2, 2]
monitors = [\"cell_end 0 2\"]
world.cells = 1
tapes.selected = [0, 1, 0, 0]

[[thread]]
kind = \"steps\"
lines = [\"load 0 -> r0\", \"plus r0 1\", \"store 0 r0\"]

[[thread]]
kind = \"steps\"
lines = [\"load 0 -> r0\", \"plus r0 1\", \"store 0 r0\"]
";

// Its report where both load before one stores: an update is lost.
pub const LOST_REPORT: &str = "\
verdict ended
steps 4
selected 4
forced 0
bent 0
switches 3
order 0 1 0 1
cells 1
locks
free
clean
dirty
pages
slots
mark 0
checks 0
monitor cell_end 0 2 failed after 4
step 0 0 load 0 = 0
step 1 1 load 0 = 0
step 2 0 store 0 1 = 0
step 3 1 store 0 1 = 0
";

#[test]
fn lost_update(rt: HostRuntime) -> Result<(), Fail> {
    let (status, out) = job_of_text(rt.alloc(), "plan", LOST_UPDATE)?;
    assert_eq!(rt; status, Status::Failing);
    assert_eq!(rt; out.taken(), LOST_REPORT.as_bytes());
    Ok(())
}
