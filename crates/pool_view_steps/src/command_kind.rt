ghost use Rattle.std.specs.Prelude.{◌≡◌};
ghost use Rattle.pool_view_steps.specs.Commands.{kind_of, word_of};

use pool_run::Command;

/// What kind of command one is.
#[derive(Clone, Copy, Debug, PartialEq, Eq)]
pub enum CommandKind {
    Instantiate,
    Component,
    Stack,
    Heap,
    Read,
    Write,
    Fill,
    Grow,
    Size,
    Get,
    Set,
    TableFill,
    TableGrow,
    TableSize,
    Drop,
    Purge,
    Release,
}

impl CommandKind {
    /// The word for it in an input.
    pub fn name(self) -> &'static str
        ensures { result.now ≡ word_of self }
    {
        match self {
            CommandKind::Instantiate => "instantiate",
            CommandKind::Component => "component",
            CommandKind::Stack => "stack",
            CommandKind::Heap => "heap",
            CommandKind::Read => "read",
            CommandKind::Write => "write",
            CommandKind::Fill => "fill",
            CommandKind::Grow => "grow",
            CommandKind::Size => "size",
            CommandKind::Get => "get",
            CommandKind::Set => "set",
            CommandKind::TableFill => "table_fill",
            CommandKind::TableGrow => "table_grow",
            CommandKind::TableSize => "table_size",
            CommandKind::Drop => "drop",
            CommandKind::Purge => "purge",
            CommandKind::Release => "release",
        }
    }
}

/// The kind of a command.
pub fn kind_of(command: &Command) -> CommandKind
    ensures { result ≡ kind_of command.now }
{
    match command {
        Command::Instantiate { .. } => CommandKind::Instantiate,
        Command::Component { .. } => CommandKind::Component,
        Command::Stack => CommandKind::Stack,
        Command::Heap { .. } => CommandKind::Heap,
        Command::Read { .. } => CommandKind::Read,
        Command::Write { .. } => CommandKind::Write,
        Command::Fill { .. } => CommandKind::Fill,
        Command::Grow { .. } => CommandKind::Grow,
        Command::Size { .. } => CommandKind::Size,
        Command::Get { .. } => CommandKind::Get,
        Command::Set { .. } => CommandKind::Set,
        Command::TableFill { .. } => CommandKind::TableFill,
        Command::TableGrow { .. } => CommandKind::TableGrow,
        Command::TableSize { .. } => CommandKind::TableSize,
        Command::Drop { .. } => CommandKind::Drop,
        Command::Purge { .. } => CommandKind::Purge,
        Command::Release => CommandKind::Release,
    }
}
