//! The names of commands and of their options.

ghost use Rattle.std.specs.Prelude.{◌≡◌, ◌≢◌, MatchOption, bytes_eq};
ghost use Rattle.hk_host_words.specs.declared.names.OptionName.{OptionName};
ghost use Rattle.hk_host_words.specs.declared.names.CommandName.{CommandName};
ghost use Rattle.hk_host_words.specs.Options.{option_text, command_text, takes};

/// A command of a group over hosts.
#[derive(Clone, Copy, Debug, PartialEq, Eq)]
pub enum CommandName {
    /// Run a process of the group.
    Node,
    /// Found the group.
    Init,
    /// Tell how it stands.
    Status,
    /// Let a node leave.
    Leave,
}

/// An option of such a command.
#[derive(Clone, Copy, Debug, PartialEq, Eq)]
pub enum OptionName {
    Hosts,
    Secret,
    Group,
    At,
    Inside,
    Listen,
    Data,
    Lease,
    Skew,
    Workers,
    Node,
}

impl CommandName {
    /// The word that it is called by.
    pub fn text(self) -> &'static str
        ensures { result.now ≡ command_text self }
    {
        match self {
            CommandName::Node => "node",
            CommandName::Init => "init",
            CommandName::Status => "status",
            CommandName::Leave => "leave",
        }
    }

    /// Whether it takes an option.
    pub(crate) fn takes(self, option: OptionName) -> bool
        ensures { result ≡ takes self option }
    {
        match option {
            OptionName::Hosts | OptionName::Secret | OptionName::Group => true,
            OptionName::At => match self {
                CommandName::Node | CommandName::Leave => true,
                CommandName::Init | CommandName::Status => false,
            },
            OptionName::Node => match self {
                CommandName::Leave => true,
                CommandName::Node | CommandName::Init | CommandName::Status => false,
            },
            OptionName::Inside
            | OptionName::Listen
            | OptionName::Data
            | OptionName::Lease
            | OptionName::Skew
            | OptionName::Workers => match self {
                CommandName::Node => true,
                CommandName::Init | CommandName::Status | CommandName::Leave => false,
            },
        }
    }
}

impl OptionName {
    /// What is typed behind the two dashes.
    pub fn text(self) -> &'static str
        ensures { result.now ≡ option_text self }
    {
        match self {
            OptionName::Hosts => "hosts",
            OptionName::Secret => "secret",
            OptionName::Group => "group",
            OptionName::At => "at",
            OptionName::Inside => "inside",
            OptionName::Listen => "listen",
            OptionName::Data => "data",
            OptionName::Lease => "lease",
            OptionName::Skew => "skew",
            OptionName::Workers => "workers",
            OptionName::Node => "node",
        }
    }

    /// Whether both have one text.
    pub(crate) fn is(self, other: OptionName) -> bool
        ensures { result ≡ bytes_eq (option_text self) (option_text other) }
    {
        self.text() == other.text()
    }
}

// The command that is called so.
pub(crate) fn read_command_name(text: &str) -> Option<CommandName>
    ensures { MatchOption result ((name : CommandName) → text.now ≢ command_text name) (λ name. text.now ≡ command_text name) }
{
    match text {
        "node" => Some(CommandName::Node),
        "init" => Some(CommandName::Init),
        "status" => Some(CommandName::Status),
        "leave" => Some(CommandName::Leave),
        _ => None,
    }
}

// The option that is called so.
pub(crate) fn read_option_name(text: &str) -> Option<OptionName>
    ensures { MatchOption result ((name : OptionName) → text.now ≢ option_text name) (λ name. text.now ≡ option_text name) }
{
    match text {
        "hosts" => Some(OptionName::Hosts),
        "secret" => Some(OptionName::Secret),
        "group" => Some(OptionName::Group),
        "at" => Some(OptionName::At),
        "inside" => Some(OptionName::Inside),
        "listen" => Some(OptionName::Listen),
        "data" => Some(OptionName::Data),
        "lease" => Some(OptionName::Lease),
        "skew" => Some(OptionName::Skew),
        "workers" => Some(OptionName::Workers),
        "node" => Some(OptionName::Node),
        _ => None,
    }
}
