//! A side's sets of positions, from its start on.

ghost use Rattle.std.specs.Prelude.{◌≡◌, ◌≤◌, ◌<◌, ◌↔◌, ◌∷◌, [], List, replicate, length, map, bit_and, vec_len, IfOk, OnOk, IsErrOf};
ghost use Rattle.spec_model.specs.Syntax.{Formula};
ghost use Rattle.spec_model.specs.Views.{formula, regular};
ghost use Rattle.spec_model.specs.Games.{letter_of};
ghost use Rattle.spec_model.specs.TriggerStates.{Written, written, brackets};
ghost use Rattle.trigger_dfa.specs.Words.{with_new};
ghost use Rattle.trigger_dfa.specs.Standings.{all_sets};
ghost use Rattle.trigger_dfa.specs.Walks.{Walks, followed_by};

use crate::counting::positions_in;
use crate::fault::DfaFault;
use crate::masks::{join, masks};
use crate::side::{MAX_POSITIONS, Side};
use spec_model::expr::{Expr, Regex};
use std::alloc::{AllocError, Global};

/// A side as words: each is a set of positions.
#[derive(Drop)]
pub struct Walk {
    /// Which may be read right after each position.
    pub follow: Vec<u64>,
    /// Which each letter makes true.
    pub masks: Vec<u64>,
    /// Which may be read first.
    pub firsts: u64,
    /// Which may be read last.
    pub lasts: u64,
}

// A side with no position yet.
fn bare(alloc: Global, atoms: usize) -> Result<Side, AllocError>
    ensures { IfOk result (λ side. (side.follow.items ≡ replicate 64 0) × (side.meant.items ≡ replicate atoms 0)) }
{
    Ok(Side {
        follow: vec![in alloc; 0; MAX_POSITIONS]?,
        meant: vec![in alloc; 0; atoms]?,
    })
}

// The side of an expression that has so many positions.
fn laid(alloc: Global, atoms: &[Expr], r: &Regex, size: usize) -> Result<Walk, AllocError>
    requires positions { size ≡ length (brackets (written (regular r.now))) }
    requires few { size ≤ 64 }
    ensures { IfOk result (λ walk. Walks (map formula atoms.now) (written (regular r.now)) walk) }
{
    let mut side = bare(alloc, atoms.len())?;
    let part = side.lay(atoms, r, size);
    let masks = masks(alloc, &side.meant)?;
    Ok(Walk {
        follow: side.follow,
        masks,
        firsts: part.firsts,
        lasts: part.lasts,
    })
}

impl Walk {
    /// The side of an expression. `Wide` past 64 positions.
    pub fn of(alloc: Global, atoms: &[Expr], r: &Regex) -> Result<Walk, DfaFault>
        ensures wide { IsErrOf result DfaFault.Wide ↔ (64 < length (brackets (written (regular r.now)))) }
        ensures side { IfOk result (λ walk. Walks (map formula atoms.now) (written (regular r.now)) walk) }
    {
        let size = positions_in(r);
        if size > MAX_POSITIONS {
            return Err(DfaFault::Wide);
        }
        Ok(laid(alloc, atoms, r, size)?)
    }

    // Adds the sets that are read from these positions, as far as they are new.
    fn meet(&self, words: &mut Vec<u64>, after: u64, limit: usize) -> Result<(), DfaFault>
        ensures met { OnOk result (words.new.items ≡ with_new words.old.items (map (bit_and after) self.now.masks.items)) }
        ensures within { OnOk result (vec_len words.old ≤ limit → vec_len words.new ≤ limit) }
        ensures wide { IsErrOf result DfaFault.Wide → limit < length (with_new words.old.items (map (bit_and after) self.now.masks.items)) }
    {
        for mask in &self.masks {
            add(words, after & *mask, limit)?;
        }
        Ok(())
    }

    // Adds the sets that follow a set, unless it has a last position.
    fn go_on(&self, words: &mut Vec<u64>, set: u64, limit: usize) -> Result<(), DfaFault>
        requires { vec_len self.now.follow ≤ 64 }
        ensures met { OnOk result (words.new.items ≡ followed_by self.now set words.old.items) }
        ensures within { OnOk result (vec_len words.old ≤ limit → vec_len words.new ≤ limit) }
        ensures wide { IsErrOf result DfaFault.Wide → limit < length (followed_by self.now set words.old.items) }
    {
        if set & self.lasts != 0 {
            return Ok(());
        }
        self.meet(words, join(&self.follow, set), limit)
    }

    /// Every set that is reached, breadth first by rising letters. `Wide` past this number of them.
    pub fn explore(&self, alloc: Global, limit: usize) -> Result<Vec<u64>, DfaFault>
        requires { vec_len self.now.follow ≤ 64 }
        ensures sets { IfOk result (λ v. (atoms : List Formula) (w : Written) → Walks atoms w self.now → v.items ≡ map letter_of (all_sets atoms w)) }
        ensures within { IfOk result (λ v. vec_len v ≤ limit) }
        ensures wide { IsErrOf result DfaFault.Wide → (atoms : List Formula) (w : Written) → Walks atoms w self.now → limit < length (all_sets atoms w) }
    {
        let mut words = Vec::new(alloc);
        self.meet(&mut words, self.firsts, limit)?;
        let mut k = 0;
        while k < words.len() {
            let set = words[k];
            self.go_on(&mut words, set, limit)?;
            k += 1;
        }
        Ok(words)
    }
}

// Adds a word, unless it is there.
fn add(words: &mut Vec<u64>, word: u64, limit: usize) -> Result<(), DfaFault>
    ensures added { OnOk result (words.new.items ≡ with_new words.old.items (word ∷ [])) }
    ensures within { OnOk result (vec_len words.old ≤ limit → vec_len words.new ≤ limit) }
    ensures wide { IsErrOf result DfaFault.Wide → limit < length (with_new words.old.items (word ∷ [])) }
{
    if words.contains(&word) {
        return Ok(());
    }
    if words.len() >= limit {
        return Err(DfaFault::Wide);
    }
    words.push(word).map_err(AllocError::from)?;
    Ok(())
}
