// Walks to a closing mark, over lines, for the crates that skip comments and make tokens; and the error of what is not closed.
#![tactic(auto)]

use spans::Position;

pub mod ahead; // ahead.rt: what stands at a place
pub mod walk; // walk.rt: walks to a closing mark
pub mod error; // error.rt: the error of what is not closed

// Where a walk to a closing mark ended, and whether it found the mark. The position counts either way, so it is no Option.
#[derive(Clone, Copy)]
pub struct Closing {
    pub at: Position,
    pub found: bool,
}
