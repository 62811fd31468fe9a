//! The copies of one diagram's parts, found by the parts' numbers.

ghost use Rattle.std.specs.Prelude.{◌≡◌, ◌<◌, ◌≤◌, ◌+◌, ◌++◌, ◌∷◌, [], ℕ, Ok, Err, IfOk, OnOk, OnErr, IfSome, length, slice_index_or, vec_len, vec_capacity};
ghost use Rattle.bdd_store.specs.State.{IsRoot, roots_at, AddsRoot, SameRoots};
ghost use Rattle.bdd_ops.specs.Calls.{KeepsRoots};
ghost use Rattle.bdd_reorder.specs.Keeping.{made_at};
ghost use Rattle.bdd_reorder.specs.Copying.{copies_at};

use bdd_ops::{Diagrams, Root, StoreFault};

/// A part's number where it is copied from, and its copy. It has to be given back.
pub struct Copied {
    pub number: u32,
    pub root: Root,
}

/// The copies made so far.
pub struct Memo {
    pub copies: Vec<Copied>,
    /// Where to look for a number first. What stands there may be of an earlier diagram.
    pub places: Vec<usize>,
}

impl Memo {
    /// The place of a number's copy.
    pub fn find(&self, number: u32) -> Option<usize>
        ensures { IfSome result (λ place. (place < length self.now.copies.items) × ((d : Copied) → (slice_index_or self.now.copies.items place d).number ≡ number)) }
    {
        let place = *self.places.get(number as usize)?;
        if place < self.copies.len() && self.copies[place].number == number {
            Some(place)
        } else {
            None
        }
    }

    /// Makes room for one more copy, of this number.
    fn reserve(&mut self, number: u32) -> Result<(), StoreFault>
        ensures copies { self.new.copies.items ≡ self.old.copies.items }
        ensures room { OnOk result ((vec_len self.new.copies < vec_capacity self.new.copies) × (number < vec_len self.new.places)) }
        ensures memory { result ≡ Err StoreFault.Full → ⊥ }
    {
        let place = number as usize;
        if self.places.len() <= place {
            self.places.resize(place + 1, 0)?;
        }
        self.copies.reserve(1)?;
        Ok(())
    }

    /// Gives all copies back.
    pub fn clear(&mut self, to: &mut Diagrams)
        requires { (n : ℕ) → copies_at n self.old.copies.items ≤ roots_at to.old.state n }
        ensures empty { self.new.copies.items ≡ [] }
        ensures released { (n : ℕ) → roots_at to.old.state n ≡ roots_at to.new.state n + copies_at n self.old.copies.items }
        ensures table { to.new.state.table ≡ to.old.state.table }
    {
        while let Some(copied) = self.copies.pop() {
            let Copied { number: _, root } = copied;
            to.release(root);
        }
    }

    /// Remembers a copy, of which a second root is kept.
    fn note(&mut self, to: &mut Diagrams, number: u32, root: &Root) -> Result<(), StoreFault>
        requires { IsRoot to.old.state root.now }
        ensures noted { OnOk result (self.new.copies.items ≡ self.old.copies.items ++ record { number = number; root = root.now } ∷ []) }
        ensures added { OnOk result (AddsRoot to.old.state to.new.state root.now) }
        ensures refused { OnErr result ((self.new.copies.items ≡ self.old.copies.items) × SameRoots to.old.state to.new.state) }
        ensures keeps { KeepsRoots to.old to.new }
        ensures memory { result ≡ Err StoreFault.Full → ⊥ }
    {
        self.reserve(number)?;
        let root = to.keep(root)?;
        self.places[number as usize] = self.copies.len();
        self.copies.push_reserved(Copied { number, root });
        Ok(())
    }

    /// Remembers a copy, if it was made. Where no memory is given for that, the copy is given back.
    pub fn remember(
        &mut self,
        to: &mut Diagrams,
        number: u32,
        made: Result<Root, StoreFault>,
    ) -> Result<Root, StoreFault>
        requires { IfOk made (λ root. IsRoot to.old.state root) }
        ensures same { IfOk result (λ root. made ≡ Ok root) }
        ensures noted { IfOk result (λ root. self.new.copies.items ≡ self.old.copies.items ++ record { number = number; root = root } ∷ []) }
        ensures added { IfOk result (λ root. AddsRoot to.old.state to.new.state root) }
        ensures refused { OnErr result ((self.new.copies.items ≡ self.old.copies.items) × ((n : ℕ) → roots_at to.old.state n ≡ roots_at to.new.state n + made_at n made)) }
        ensures keeps { KeepsRoots to.old to.new }
        ensures full { result ≡ Err StoreFault.Full → (made ≡ Err StoreFault.Full) × (to.new.state.table ≡ to.old.state.table) }
    {
        match made {
            Err(fault) => Err(fault),
            Ok(root) => match self.note(to, number, &root) {
                Ok(()) => Ok(root),
                Err(fault) => {
                    to.release(root);
                    Err(fault)
                }
            },
        }
    }
}
