ghost use Rattle.std.specs.Prelude.{◌≡◌, ◌++◌, ℕ, List, Some, IsErrOf, OnOk, OnErr};
ghost use Rattle.std.specs.Io.KnownBytes.{Appends};
ghost use Rattle.pd_io.specs.Faults.{HasWriteCause};
ghost use Rattle.pd_lines.specs.Output.{WritesPrefix};

use pd_io::{PutFault, Sink};

/// Writes the whole text, in as many pieces as the sink wants. A refusal is the sink's own, and
/// what was written before it stays written.
#[tactic(auto, using(crate::proofs::Pieces::appends_none, crate::proofs::Pieces::appends_more, crate::proofs::Pieces::appends_all, crate::proofs::Pieces::appends_kept))]
pub fn put_all<K: Sink>(sink: &mut K, text: &[u8]) -> Result<(), PutFault>
    ensures ok { OnOk result (Appends (K.held sink.old) (K.held sink.new) text.now) }
    ensures err { OnErr result (WritesPrefix (K.held sink.old) (K.held sink.new) text.now) }
    ensures cause { HasWriteCause (K.faults sink.old) (K.faults sink.new) result }
{
    let mut at = 0usize;
    while at < text.len() {
        match sink.put(&text[at..]) {
            Ok(count) => at += count,
            Err(fault) => return Err(fault),
        }
    }
    Ok(())
}

/// What was written of a text is its front: with the rest of the text it is the whole.
pub fn what_is_written_is_the_front()
    ensures { (old new text : List ℕ) → WritesPrefix (Some old) (Some new) text →
        (rest : List ℕ) × (old ++ text ≡ new ++ rest) }
{}
