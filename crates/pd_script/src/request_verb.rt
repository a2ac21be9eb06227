ghost use Rattle.std.specs.Prelude.{◌≡◌};
ghost use Rattle.std.specs.List.{find};
ghost use Rattle.std.specs.Str.{bytes_eq};
ghost use Rattle.pd_script.specs.Asks.{request_verb_of, request_word};

/// The first words of the lines that ask a driver's cluster.
#[derive(Clone, Copy, Debug, PartialEq, Eq)]
pub enum RequestVerb {
    Hello,
    Alive,
    Beat,
    Rule,
    Unrule,
    Check,
    Patrol,
    Schedule,
    Ctl,
}

/// All of them.
pub const REQUEST_VERBS: [RequestVerb; 9] = [
    RequestVerb::Hello,
    RequestVerb::Alive,
    RequestVerb::Beat,
    RequestVerb::Rule,
    RequestVerb::Unrule,
    RequestVerb::Check,
    RequestVerb::Patrol,
    RequestVerb::Schedule,
    RequestVerb::Ctl,
];

impl RequestVerb {
    /// The word itself.
    pub fn word(self) -> &'static str
        ensures value { result.now ≡ request_word self }
    {
        match self {
            RequestVerb::Hello => "hello",
            RequestVerb::Alive => "alive",
            RequestVerb::Beat => "beat",
            RequestVerb::Rule => "rule",
            RequestVerb::Unrule => "unrule",
            RequestVerb::Check => "check",
            RequestVerb::Patrol => "patrol",
            RequestVerb::Schedule => "schedule",
            RequestVerb::Ctl => "ctl",
        }
    }
}

// The first of these that the word names.
fn first_named_request(verbs: &[RequestVerb], word: &[u8]) -> Option<RequestVerb>
    ensures value { result ≡ find (λ verb. bytes_eq word.now (request_word verb)) verbs.now }
{
    for verb in verbs {
        if word == verb.word().as_bytes() {
            return Some(*verb);
        }
    }
    None
}

/// The verb of a request that a word names.
pub fn request_verb_of(word: &[u8]) -> Option<RequestVerb>
    ensures value { result ≡ request_verb_of word.now }
{
    first_named_request(&REQUEST_VERBS, word)
}
