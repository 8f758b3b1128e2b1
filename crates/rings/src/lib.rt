// Where the entries of a ring of slots are. A host keeps the slots and what lies in them: a ring of days, of months, of ratios. What a
// ring holds after a change, whatever an entry is, is in theory/proofs/general/Ring.antt.
#![tactic(auto)]

ghost use Rattle.std.specs.Prelude.{◌≡◌, ◌<◌, ◌≤◌, ◌↔◌, IsSome, IfSome, MatchOption};
ghost use Rattle.rollingmodel.specs.Rolling.{slot};

// `count` entries, the oldest in the slot `start`, of a ring of `SLOTS` slots.
#[derive(Clone, Copy)]
pub struct Place<const SLOTS: usize> {
    pub count: usize,
    pub start: usize,
    ghost counted: { count ≤ SLOTS },
    ghost started: { start < SLOTS },
}

impl<const SLOTS: usize> Place<SLOTS> {
    // The place that a host tells, if it is one of a ring of this size.
    pub fn new(count: u64, start: u64) -> Option<Self>
        ensures right { IsSome result ↔ ((count ≤ SLOTS) × (start < SLOTS)) }
        ensures count { IfSome result (λ p. p.count ≡ count) }
        ensures start { IfSome result (λ p. p.start ≡ start) }
    {
        let count = count as usize;
        let start = start as usize;
        if count <= SLOTS && start < SLOTS {
            Some(Place { count, start })
        } else {
            None
        }
    }

    // The slot of entry `i`, from the oldest; that of the entry after the newest, for `count`.
    pub fn slot(&self, i: usize) -> usize
        requires { i ≤ SLOTS }
        ensures slot { result ≡ slot SLOTS self.now.start i }
        ensures within { result < SLOTS }
    {
        let before_the_end = SLOTS - self.start;
        if i < before_the_end {
            self.start + i
        } else {
            i - before_the_end
        }
    }

    // The slot of the oldest entry, if there is one.
    pub fn oldest(&self) -> Option<usize>
        ensures some { IsSome result ↔ (0 < self.now.count) }
        ensures slot { IfSome result (λ j. j ≡ self.now.start) }
    {
        if self.count == 0 {
            None
        } else {
            Some(self.start)
        }
    }

    // The slot for an entry after the newest, if one is left.
    pub fn free(&self) -> Option<usize>
        ensures some { IsSome result ↔ (self.now.count < SLOTS) }
        ensures slot { IfSome result (λ j. j ≡ slot SLOTS self.now.start self.now.count) }
        ensures within { IfSome result (λ j. j < SLOTS) }
    {
        if self.count < SLOTS {
            Some(self.slot(self.count))
        } else {
            None
        }
    }
}
