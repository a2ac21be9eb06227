ghost use Rattle.std.specs.Prelude.{◌≡◌, Some};
ghost use Rattle.pd_cluster.specs.Answers.{said_text};

use pd_types::StepMsg;
use std::fmt;

/// What a line is answered: by the oracle or by a driver's cluster, or the message that a store took. It
/// prints as the answer's text.
#[derive(Debug, Drop, PartialEq)]
pub enum Said {
    ByOracle(tso_core::Reply),
    ByCluster(pd_state::Reply),
    Popped(Option<StepMsg>),
}

impl fmt::Display for Said {
    ghost output = { λ said. Some (said_text said) };

    fn fmt<W: fmt::Write>(&self, f: &mut fmt::Formatter<W>) -> fmt::Result {
        match self {
            Said::ByOracle(reply) => reply.fmt(f),
            Said::ByCluster(reply) => reply.fmt(f),
            Said::Popped(None) => write!(f, "empty"),
            Said::Popped(Some(message)) => {
                let StepMsg {
                    term,
                    entry,
                    region,
                    step,
                    ..
                } = message;
                write!(f, "popped term {term} entry {entry} region {region} {step}")
            }
        }
    }
}
