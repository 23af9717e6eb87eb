// Lines as commands.
ghost use Rattle.std.specs.Prelude.{◌≡◌, ◌⊎◌, IfOk, Ok, Err};
ghost use Rattle.param_flow.specs.declared.command.Command.{Command as CommandOf};
ghost use Rattle.param_flow.specs.Commands.{IsCommand};
ghost use Rattle.play_script.specs.declared.errors.LineError.TheVariants.{Fault, Memory};

use crate::LineError;
use crate::commands::command_of;
use json_exact::JsonError;
use param_flow::Command;
use std::alloc::Global;

/// The command that a line is, without its end. `Fault` comes exactly where it is none.
pub fn read_command(alloc: Global, line: &[u8]) -> Result<Command, LineError>
    // What is read is what the line says.
    ensures sound { IfOk result (IsCommand line.now) }
    // What the line says is read, unless memory is refused.
    ensures complete { (command : CommandOf) → IsCommand line.now command → (result ≡ Ok command) ⊎ (result ≡ Err Memory) }
    // A fault is answered only where the line is no command.
    ensures fault { result ≡ Err Fault → (command : CommandOf) → IsCommand line.now command → ⊥ }
{
    match json_exact::read(alloc, line) {
        Ok(tree) => command_of(alloc, tree),
        Err(JsonError::Fault { .. }) => Err(LineError::Fault),
        Err(JsonError::Memory) => Err(LineError::Memory),
    }
}
