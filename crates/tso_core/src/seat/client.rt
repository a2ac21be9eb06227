// What a step of a client makes of what it knows and did.
ghost use Rattle.std.specs.Prelude.{◌≡◌, ◌+◌, ◌<◌, ◌^◌};
ghost use Rattle.pd_types.specs.declared.stamp.TheConstants.{LOGICAL};
ghost use Rattle.tso_model.specs.declared.step.WordStep.TheVariants.{LoadLimit, ArmCount, AddArmed};
ghost use Rattle.tso_model.specs.History.{added_by};
ghost use Rattle.tso_model.specs.Steps.{hand};
ghost use Rattle.tso_core.specs.Done.{done_of};
ghost use Rattle.tso_core.specs.Ready.{word_end, HandFits};
ghost use Rattle.tso_core.specs.Seated.{seat_after};

use crate::Done;
use crate::seat::Seat;
use pd_types::{Batch, LOGICAL, Seen};
use tso_model::{Added, Grant, Limit, Look, Refusal, is_passing};

impl Seat {
    #[inline(always)]
    pub(super) fn look(&mut self, driver: u8, word: u64) -> Done
        requires room { 0 < self.old.spare }
        ensures done { result ≡ done_of (LoadLimit driver) word self.old.view }
        ensures after { self.new ≡ seat_after (LoadLimit driver) word self.old }
    {
        self.spare -= 1;
        self.looks.push_reserved(Look {
            client: self.client,
            driver,
            word,
            seen: self.seen,
        });
        self.hand = None;
        if word == 0 {
            return Done::NoLimit;
        }
        let (term, hi) = (word % LOGICAL, word / LOGICAL);
        if term < self.seen.term {
            return Done::Stale {
                seen_term: self.seen.term,
            };
        }
        self.hand = Some(Limit { driver, term, hi });
        Done::Looked { term, hi }
    }

    #[inline(always)]
    pub(super) fn arm(&mut self, n: u64, at: u64) -> Done
        requires fits { HandFits self.old.view }
        requires n { n < LOGICAL }
        requires found { at < word_end }
        requires room { 0 < self.old.spare }
        ensures done { result ≡ done_of (ArmCount n) at self.old.view }
        ensures after { self.new ≡ seat_after (ArmCount n) at self.old }
    {
        let Limit { driver, hi, .. } = self.in_hand();
        self.spare -= 1;
        if !is_passing(at, hi, n) {
            self.armed = n;
            return Done::Armed { at };
        }
        self.refusals.push_reserved(Refusal {
            client: self.client,
            driver,
            at,
            hi,
            count: n,
            sum: self.sums[driver as usize],
        });
        self.hand = None;
        self.armed = 0;
        Done::Refused { at, hi, n }
    }

    // The count is added whether it fits or not.
    #[tactic(auto, using(crate::proofs::Seats::sums_snoc))]
    #[inline(always)]
    pub(super) fn draw(&mut self, at: u64) -> Done
        requires fits { HandFits self.old.view }
        requires found { at < word_end }
        requires sum { added_by self.old.view.client (hand self.old.view).driver self.old.view.added + self.old.view.armed < 2 ^ 64 }
        requires room { 0 < self.old.spare }
        ensures done { result ≡ done_of AddArmed at self.old.view }
        ensures after { self.new ≡ seat_after AddArmed at self.old }
    {
        let Limit { driver, term, hi } = self.in_hand();
        let n = self.armed;
        let passing = is_passing(at, hi, n);
        let (client, sum) = (self.client, self.sums[driver as usize]);
        self.spare -= 1;
        self.added.push_reserved(Added {
            client,
            driver,
            count: n,
        });
        self.sums[driver as usize] = sum + n;
        self.hand = None;
        self.armed = 0;
        if passing {
            self.refusals.push_reserved(Refusal {
                client,
                driver,
                at,
                hi,
                count: n,
                sum,
            });
            return Done::Refused { at, hi, n };
        }
        let batch = Batch {
            term,
            driver,
            last: at + n,
            count: n,
        };
        self.grants.push_reserved(Grant { client, batch });
        self.seen = Seen {
            term,
            last: batch.last,
        };
        Done::Granted { batch }
    }
}
