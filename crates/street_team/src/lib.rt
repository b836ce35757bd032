//! Workers that stay: threads that a caller lends items to, again and again, and that wait in between.
#![tactic(auto)]

mod block;
mod shared;
mod task;
mod team;
#[cfg(test)]
mod tests;
mod waits;
mod work;

pub use block::{ItemBlock, new_blocks};
pub use shared::{TeamState, join_workers, start_workers};
pub use task::{FinishedTask, Task};
pub use team::{Team, new_locks};
pub use work::TeamWork;
