//! The calls that look at a diagram. They take no memory, other than for the levels of a path.

ghost use Rattle.std.specs.Prelude.{◌≡◌, ◌++◌, length, OnOk};
ghost use Rattle.spec_model.specs.DiagramReads.{bits_of};
ghost use Rattle.bdd_store.specs.State.{IsEdge, IsRoot, diagram_of};
ghost use Rattle.bdd_ops.specs.Contents.{function_at};
ghost use Rattle.bdd_ops.specs.Straight.{is_false, goes_high, levels_on};

use crate::OutOfMemory;
use crate::work::Work;
use bdd_store::{Edge, Root};

impl Work {
    /// The diagram's value where each level has this bit.
    pub(crate) fn eval(&self, a: &Root, bits: &[bool]) -> bool
        requires kept { IsRoot self.now.state a.now }
        requires one_each { length bits.now ≡ self.now.state.table.levels }
        ensures { result ≡ function_at self.now a.now (bits_of bits.now) }
    {
        let mut edge = self.edge(a);
        while let Some((level, low, high)) = self.parts(edge) {
            edge = if bits[level as usize] { high } else { low };
        }
        edge == self.constant_edge(true)
    }

    /// Whether an edge is the false constant.
    fn is_false(&self, e: Edge) -> bool
        requires { IsEdge self.now.state e.0 }
        ensures { result ≡ is_false (diagram_of self.now.state e.0) }
    {
        match self.constant_at(e) {
            Some(b) => !b,
            None => false,
        }
    }

    /// Whether a path that goes to the part of the bit `towards`, unless that is false, goes to the high part.
    fn goes_high(&self, towards: bool, low: Edge, high: Edge) -> bool
        requires low_live { IsEdge self.now.state low.0 }
        requires high_live { IsEdge self.now.state high.0 }
        ensures { result ≡ goes_high towards (diagram_of self.now.state low.0) (diagram_of self.now.state high.0) }
    {
        if towards {
            !self.is_false(high)
        } else {
            self.is_false(low)
        }
    }

    /// Adds the levels that one path of a diagram reads, from the top down: at each node it goes to the part of the bit
    /// `towards`, unless that is false, and then to the other one.
    pub(crate) fn path(
        &self,
        a: &Root,
        towards: bool,
        levels: &mut Vec<u32>,
    ) -> Result<(), OutOfMemory>
        requires { IsRoot self.now.state a.now }
        ensures { OnOk result (levels.new.items ≡ levels.old.items ++ levels_on towards (diagram_of self.now.state a.now)) }
    {
        let mut edge = self.edge(a);
        while let Some((level, low, high)) = self.parts(edge) {
            levels.push(level)?;
            edge = if self.goes_high(towards, low, high) {
                high
            } else {
                low
            };
        }
        Ok(())
    }
}
