// What comes of adding an operator.
ghost use Rattle.std.specs.Prelude.{◌≡◌, ◌<◌, ◌∷◌, [], Some, slice_index};
ghost use Rattle.hex.specs.Hex.{encode_lower, lower_digits};
ghost use Rattle.pd_state.specs.AddingText.{adding_text, build_text, class_text, dispatch_text, why_text};

use op_control::{AddFault, Dispatch};
use op_step::{BuildFault, Why};
use rule_checker::Class;
use std::fmt;

/// What comes of adding an operator: it is dispatched at once, or the first reason why it isn't
/// added. Want of memory is no reason here.
#[derive(Clone, Copy, Debug, PartialEq, Eq)]
pub enum Adding {
    /// It was added, and its dispatch was answered so.
    Added(Dispatch),
    /// The wish for it can't be built.
    Build(BuildFault),
    /// One of the tests of an operator fails.
    Add(AddFault),
    /// A later term was announced, so that no id was taken.
    OldTerm { fence: u64 },
    /// The window of ids was saved by another, so that no id was taken.
    Conflict { found: u64 },
    /// The metadata has no room, so that no id was taken.
    MetaLimit,
    /// No window of ids is left.
    IdsSpent,
}

// The name of the test that holds a step.
fn why_text(why: Why) -> &'static str
    ensures value { result.now ≡ why_text why }
{
    match why {
        Why::Before => "before",
        Why::After => "after",
        Why::Target => "target",
    }
}

// Why a wish can't be built.
fn build_text(fault: BuildFault) -> &'static str
    ensures value { result.now ≡ build_text fault }
{
    match fault {
        BuildFault::UnknownStore => "unknown-store",
        BuildFault::NotUsable => "not-usable",
        BuildFault::HasPeer => "has-peer",
        BuildFault::NoPeer => "no-peer",
        BuildFault::IsLeader => "is-leader",
        BuildFault::NotVoter => "not-voter",
        BuildFault::NoTarget => "no-target",
        BuildFault::NoMemory => "no-memory",
    }
}

/// The name of a plan's class.
pub fn class_text(class: Class) -> &'static str
    ensures value { result.now ≡ class_text class }
{
    match class {
        Class::Promote => "promote",
        Class::Transfer => "transfer",
        Class::AddVoter => "add-voter",
        Class::AddLearner => "add-learner",
        Class::Remove => "remove",
    }
}

/// The answer of a dispatch, which prints as its text.
#[derive(Clone, Copy)]
pub struct DispatchText {
    pub dispatch: Dispatch,
}

// The hexadecimal digit of a number below 16.
fn digit_text(number: u8) -> &'static str
    requires { number < 16 }
    ensures value { result.now ≡ slice_index lower_digits number ∷ [] }
{
    match number {
        0 => "0",
        1 => "1",
        2 => "2",
        3 => "3",
        4 => "4",
        5 => "5",
        6 => "6",
        7 => "7",
        8 => "8",
        9 => "9",
        10 => "a",
        11 => "b",
        12 => "c",
        13 => "d",
        14 => "e",
        _ => "f",
    }
}

/// A key, which prints in lower case hexadecimal.
#[derive(Clone, Copy)]
pub struct KeyText<'a> {
    pub key: &'a [u8],
}

impl fmt::Display for KeyText<'_> {
    ghost output = { λ text. Some (encode_lower text.key.now) };

    fn fmt<W: fmt::Write>(&self, f: &mut fmt::Formatter<W>) -> fmt::Result {
        for byte in self.key {
            f.write_str(digit_text(byte / 16))?;
            f.write_str(digit_text(byte % 16))?;
        }
        Ok(())
    }
}

impl fmt::Display for DispatchText {
    ghost output = { λ text. Some (dispatch_text text.dispatch) };

    fn fmt<W: fmt::Write>(&self, f: &mut fmt::Formatter<W>) -> fmt::Result {
        match self.dispatch {
            Dispatch::NoOperator => write!(f, "none"),
            Dispatch::Send(step) => write!(f, "send {step}"),
            Dispatch::Wait(held) => {
                let (why, live, voters) = (why_text(held.why), held.live, held.voters);
                write!(f, "held {why} live {live} of {voters}")
            }
            Dispatch::Done => write!(f, "done"),
            Dispatch::Ended(state) => {
                let state = state.name();
                write!(f, "ended {state}")
            }
        }
    }
}

impl fmt::Display for Adding {
    ghost output = { λ adding. Some (adding_text adding) };

    fn fmt<W: fmt::Write>(&self, f: &mut fmt::Formatter<W>) -> fmt::Result {
        match *self {
            Adding::Added(dispatch) => {
                let text = DispatchText { dispatch };
                write!(f, "{text}")
            }
            Adding::Build(fault) => f.write_str(build_text(fault)),
            Adding::Add(AddFault::NoRegion) => write!(f, "no-region"),
            Adding::Add(AddFault::EpochMoved { kept }) => {
                let (conf_ver, version) = (kept.conf_ver, kept.version);
                write!(f, "epoch-moved conf {conf_ver} version {version}")
            }
            Adding::Add(AddFault::Busy { priority }) => write!(f, "busy {priority}"),
            Adding::Add(AddFault::Limited { available, needed }) => {
                write!(f, "limited available {available} needed {needed}")
            }
            Adding::Add(AddFault::Limit) => write!(f, "limit"),
            Adding::Add(AddFault::NoMemory) => write!(f, "no-memory"),
            Adding::OldTerm { fence } => write!(f, "old-term {fence}"),
            Adding::Conflict { found } => write!(f, "conflict {found}"),
            Adding::MetaLimit => write!(f, "meta-limit"),
            Adding::IdsSpent => write!(f, "ids-spent"),
        }
    }
}
