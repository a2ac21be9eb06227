ghost use Rattle.std.specs.Prelude.{◌≡◌, map, string_bytes};

use pd_lines::number;

/// What the program is asked to do.
#[derive(Clone, Copy, Debug, PartialEq, Eq)]
pub enum Command {
    /// Run the lines of a script in their order.
    Replay,
    /// Run the lines of a script, each driver's and each client's on a thread of its own.
    Run,
    /// Print the two parts of a timestamp.
    Tso { timestamp: u64 },
}

impl Command {
    ghost use Rattle.pd_cluster.specs.Command.{command_of};

    /// The command that the words of a command line name.
    pub fn of(words: &[String]) -> Option<Command>
        ensures value { result ≡ command_of (map string_bytes words.now) }
    {
        match words {
            [word] if word.as_str() == "replay" => Some(Command::Replay),
            [word] if word.as_str() == "run" => Some(Command::Run),
            [word, timestamp] if word.as_str() == "tso" => {
                let timestamp = number(timestamp.as_bytes())?;
                Some(Command::Tso { timestamp })
            }
            _ => None,
        }
    }
}
