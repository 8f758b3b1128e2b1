// Flows as a list of whole euros, the first of term 1: one type for pension and bond flows, with room for the most that a file may have.
ghost use Rattle.std.specs.Prelude.{◌≡◌, ◌<◌, ◌≤◌, [], ◌∷◌, ◌++◌, length};

use std::marker::Model;

/// At most `MOST` flows, in whole euros, of the terms from 1 on. A contract sees the list of them. Memory is fixed, so there is room for the
/// most. Those that a host hands in to be saved stay in its own slices, which `saving` borrows.
#[derive(Clone, Copy)]
pub struct Flows<const MOST: usize> {
    count: usize,
    // The entries after the first `count` are 0, so that two equal lists are held alike.
    entries: [u64; MOST],
}

impl<const MOST: usize> Model for Flows<MOST> {
    ghost use Rattle.std.specs.Prelude.{ℕ, List, length, take};
    ghost use Rattle.heldcase.specs.inner.Room.{Room, filled, count-taken, filled-taken};

    ghost Value = { List ℕ };

    ghost view = { λ f. take f.count f.entries };

    ghost invariant = { λ f. Room MOST f.count f.entries };

    ghost inverse = { λ xs. record { count = length xs; entries = filled MOST xs } };

    ghost inverse_ok = { λ f h i. record { count = count-taken h i; entries = filled-taken h i } };
}

impl<const MOST: usize> Default for Flows<MOST> {
    ghost is_default = { λ f. f ≡ [] };

    /// No flows. Not derived, since the derive asks for a default of an array of `MOST`, and std has none.
    fn default() -> Self {
        Flows {
            count: 0,
            entries: [0; MOST],
        }
    }
}

impl<const MOST: usize> Flows<MOST> {
    /// The flows of a slice.
    pub fn from_slice(flows: &[u64]) -> Self
        requires { length flows.now ≤ MOST }
        ensures { result ≡ flows.now }
    {
        let count = flows.len();
        let mut entries = [0; MOST];
        entries[..count].copy_from_slice(flows);
        Flows { count, entries }
    }

    /// One flow more, of the term after the last, as `Vec::push` has it: the heap that a `Vec` needs is not there.
    pub fn push(&mut self, euros: u64)
        requires { length self.old < MOST }
        ensures { self.new ≡ self.old ++ euros ∷ [] }
    {
        self.entries[self.count] = euros;
        self.count += 1;
    }

    /// The flows.
    pub fn as_slice(&self) -> &[u64]
        ensures value { result.now ≡ self.now }
        ensures fits { length result.now ≤ MOST }
    {
        &self.entries[..self.count]
    }
}
