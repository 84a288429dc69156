//! What the words of commands promise.

ghost use Rattle.hk_cli.specs.Words.{WordsTellCommands};

/// No words are two commands.
pub fn commands_are_one()
    ensures { WordsTellCommands }
{}
