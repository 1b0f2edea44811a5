//! The text of the help.
use crate::command_line::command_line;
use ob_base::Memory;
use std::alloc::Global;

/// What `clap` says of the command line: the commands, and the options with their ranges and defaults.
pub fn help_text(alloc: Global) -> Result<String, Memory> {
    let mut command = command_line(alloc)?;
    Ok(command.render_help()?)
}
