// The limits that are told of where a script passes them.

/// The greatest number of steps of a function.
pub const MAX_STEPS: usize = 64;

/// The greatest number of commands.
pub const MAX_COMMANDS: usize = 256;
