//! Roots that are to be true together, and bits that make them so.

ghost use Rattle.std.specs.Prelude.{◌≡◌, [], ◌++◌, ◌∷◌, ◌<◌, ◌≤◌, ◌+◌, false, length, IfOk, IsTrue};
ghost use Rattle.std.specs.List.{All};
ghost use Rattle.bdd_store.specs.State.{IsRoot};
ghost use Rattle.spec_model.specs.DiagramReads.{bits_of};
ghost use Rattle.bdd_ops.specs.Paths.{IsFirst, HasNone};
ghost use Rattle.bdd_ops.specs.Together.{Together};
ghost use Rattle.bdd_bits.specs.Contents.{function_at};
ghost use Rattle.bdd_bits.specs.Paths.{all_of};
ghost use Rattle.bdd_bits.specs.Settling.{HasRoom};

use crate::OutOfMemory;
use crate::diagrams::Diagrams;
use crate::paths::Room;
use crate::placing::write_by_level;
use bdd_ops::Root;
use std::alloc::Global;
use std::marker::Model;

/// Roots that are to be true together, and what a search for such bits works in.
#[derive(Drop)]
pub struct Conjunction {
    room: Room,
}

impl Model for Conjunction {
    ghost Value = { Together };

    ghost view = { λ x. x.room.over_levels };

    ghost invariant = { λ x. HasRoom x.room.over_levels.levels x.room };
}

impl Conjunction {
    /// Room for up to `most` roots over `levels` levels. It takes all the memory that searches need.
    pub fn make(alloc: Global, levels: u32, most: u32) -> Result<Conjunction, OutOfMemory>
        ensures { IfOk result (λ x. x ≡ record { levels = levels; most = most; roots = [] }) }
    {
        Ok(Conjunction {
            room: Room::make(alloc, levels, most)?,
        })
    }

    /// Asks for no root any more.
    pub fn clear(&mut self)
        ensures { self.new ≡ record { levels = self.old.levels; most = self.old.most; roots = [] } }
    {
        self.room.over_levels.clear();
    }
}

impl Diagrams {
    /// Asks for one root more.
    pub fn include(&self, root: &Root, all: &mut Conjunction)
        requires kept { IsRoot self.now.state root.now }
        requires room { length all.old.roots < all.old.most }
        ensures { all.new ≡ record { levels = all.old.levels; most = all.old.most; roots = all.old.roots ++ root.now ∷ [] } }
    {
        self.over_levels.include(root, &mut all.room.over_levels);
    }

    /// Asks for these roots too.
    pub fn include_all(&self, roots: &[Root], all: &mut Conjunction)
        requires kept { All (λ n. IsRoot self.now.state n) roots.now }
        requires room { length all.old.roots + length roots.now ≤ all.old.most }
        ensures { all.new ≡ record { levels = all.old.levels; most = all.old.most; roots = all.old.roots ++ roots.now } }
    {
        self.over_levels
            .include_all(roots, &mut all.room.over_levels);
    }

    /// The diagram's value where each bit is as it is given. It works in `all`, and asks for nothing there.
    pub fn eval(&self, a: &Root, bits: &[bool], all: &mut Conjunction) -> bool
        requires kept { IsRoot self.now.state a.now }
        requires levels { all.old.levels ≡ self.now.state.table.levels }
        requires one_each { length bits.now ≡ self.now.state.table.levels }
        ensures value { result ≡ function_at self.now a.now (bits_of bits.now) }
        ensures asked { all.new ≡ all.old }
    {
        write_by_level(&self.order, bits, &mut all.room.by_level);
        self.over_levels.eval(a, &all.room.by_level)
    }

    /// Finds the first bits, bit by bit and false before true, that agree with what is fixed and make all roots true that
    /// `all` asks for, and answers whether there are any. `fixed` and `out` have a place for each bit; where there are none,
    /// what `out` holds then means nothing. It takes no memory. Each bit that is not fixed and is true where a search finds
    /// it so takes a search more; each search tries both bits of each free level in the worst case.
    pub fn first_common_path(
        &self,
        all: &mut Conjunction,
        fixed: &[Option<bool>],
        out: &mut [bool],
    ) -> bool
        requires kept { All (λ n. IsRoot self.now.state n) all.old.roots }
        requires levels { all.old.levels ≡ self.now.state.table.levels }
        requires fixed_each { length fixed.now ≡ self.now.state.table.levels }
        requires out_each { length out.old ≡ self.now.state.table.levels }
        ensures first { IsTrue result → IsFirst fixed.now (all_of self.now all.old.roots) 0 self.now.state.table.levels (bits_of out.new) }
        ensures none { result ≡ false → HasNone fixed.now (all_of self.now all.old.roots) 0 }
        ensures asked { all.new ≡ all.old }
    {
        self.first_path(&mut all.room, fixed, out)
    }
}
