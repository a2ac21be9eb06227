// The lines by which a store says hello and that it is alive.
ghost use Rattle.std.specs.Prelude.{◌≡◌, IfOk, IfErr, Ok};
ghost use Rattle.pd_script.specs.Refusals.{IsLineRefusal};
ghost use Rattle.pd_script.specs.StoreLines.{alive_of, greeted, hello_of, labels_or};
ghost use Rattle.pd_script.specs.Words.{words};

use crate::Reason;
use crate::ask::{Asked, Head, read_head};
use crate::form::{address, labels};
use crate::refusal::LineRefusal;
use crate::split::{next_word, word};
use pd_types::{Labels, Request};
use std::alloc::Global;

// The labels of a word, none of the empty one.
fn labels_or(alloc: Global, word: &[u8]) -> Result<Labels, LineRefusal>
    ensures ok { IfOk result (λ labels. labels_or word.now ≡ Ok labels) }
    ensures refused { IfErr result (IsLineRefusal (labels_or word.now)) }
{
    if word.is_empty() {
        return Ok(Labels::new(alloc));
    }
    labels(alloc, word)
}

// A store with its address and labels, none of the empty word.
fn greet(
    alloc: Global,
    head: Head,
    address_word: &[u8],
    labels_word: &[u8],
) -> Result<Asked, LineRefusal>
    ensures ok { IfOk result (λ asked. greeted (Ok head) address_word.now labels_word.now ≡ Ok asked) }
    ensures refused { IfErr result (IsLineRefusal (greeted (Ok head) address_word.now labels_word.now)) }
{
    let Head {
        store,
        driver,
        moment,
    } = head;
    let address = address(alloc, address_word)?;
    let labels = labels_or(alloc, labels_word)?;
    Ok(Asked {
        driver,
        request: Request::Hello {
            store,
            moment,
            address,
            labels,
        },
    })
}

/// Reads what stands behind the word of `hello S D NOW ADDRESS [LABELS]`. Want of memory alone reads
/// nothing.
pub fn hello(alloc: Global, rest: &[u8]) -> Result<Asked, LineRefusal>
    ensures ok { IfOk result (λ asked. hello_of (words rest.now) ≡ Ok asked) }
    ensures refused { IfErr result (IsLineRefusal (hello_of (words rest.now))) }
{
    let (store, rest) = word(rest)?;
    let (driver, rest) = word(rest)?;
    let (moment, rest) = word(rest)?;
    let (address, rest) = word(rest)?;
    let Some((labels, rest)) = next_word(rest) else {
        let head = read_head(store, driver, moment)?;
        return greet(alloc, head, address, &[]);
    };
    if next_word(rest).is_some() {
        return Err(LineRefusal::Fault(Reason::ExtraWord));
    }
    let head = read_head(store, driver, moment)?;
    greet(alloc, head, address, labels)
}

/// Reads what stands behind the word of `alive S D NOW`.
pub fn alive(rest: &[u8]) -> Result<Asked, Reason>
    ensures value { result ≡ alive_of (words rest.now) }
{
    let (store, rest) = word(rest)?;
    let (driver, rest) = word(rest)?;
    let (moment, rest) = word(rest)?;
    if next_word(rest).is_some() {
        return Err(Reason::ExtraWord);
    }
    let Head {
        store,
        driver,
        moment,
    } = read_head(store, driver, moment)?;
    Ok(Asked {
        driver,
        request: Request::Alive { store, moment },
    })
}
