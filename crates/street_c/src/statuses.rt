//! What each call of C returns. `library/streetsim.h` has them by name.

/// The call was done.
pub const DONE: u32 = 0;

/// Memory was refused, and nothing was done.
pub const STARVED: u32 = 1;

/// No session is open, or, of `streetsim_open`, one is.
pub const MISUSED: u32 = 2;

/// The call was served, and its reply is longer than the room: `streetsim_reply` gives it.
pub const SHORT: u32 = 3;

/// The call was served, and memory was refused for the line of its reply: `streetsim_reply` makes it.
pub const UNTOLD: u32 = 4;

/// The call was served, and its reply is none of those that the call has room for, as a refusal: `streetsim_reply` gives its line.
pub const OTHER: u32 = 5;
