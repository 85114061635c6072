use event_class::Selection;
use routine_kit::Routine;
use seed_draws::Draws;
use test_world::{Monitor, WorldSize};
use walk_rules::Walk;

/// What a run is made of. It can be run where it is valid: the world is within the limits; there are at most
/// `THREADS` routines; the walk is new and has a count for each routine; `max_steps` is from 1 to `STEPS`; there
/// are at most `MONITORS` monitors, and the world has each cell that one watches; and under URW the selection is every
/// event.
#[derive(Drop)]
pub struct Plan<R: Routine, S: Draws, O: Draws> {
    /// The size of the world.
    pub world: WorldSize,
    /// The routine of each thread.
    pub routines: Vec<R>,
    /// Which events are selected.
    pub selection: Selection,
    /// The strategy with its counts.
    pub walk: Walk,
    /// The source of the selected draws.
    pub selected: S,
    /// The source of the other draws.
    pub other: O,
    /// The most entries that the journal may have.
    pub max_steps: u32,
    /// What is watched for.
    pub monitors: Vec<Monitor>,
}
