//! One turn of the play: which goal is aimed at, and where the output leads.

ghost use Rattle.std.specs.Prelude.{◌≡◌, ◌<◌, ◌+◌, ◌^◌, ◌&&◌, ◌==◌, ℕ, suc, length, Some, IsTrue};
ghost use Rattle.spec_model.specs.Values.{Assignment};
ghost use Rattle.spec_model.specs.Games.{State, listed};
ghost use Rattle.spec_model.specs.Steps.{Before, is_state};
ghost use Rattle.spec_model.specs.Sets.{StateSet};
ghost use Rattle.regions.specs.Kept.{Stays, IsSameGame};
ghost use Rattle.regions.specs.Rules.{AreBefore, output_count};
ghost use Rattle.gr1_law.specs.Layers.{LayerSets, goal_set, goal_sets};
ghost use Rattle.gr1_law.specs.Choice.{Memory, goal_aimed, goal_stays, waits as waits_lem};
ghost use Rattle.strategy_parts.specs.Owned.{RegionsAre, AreSomewhere};
ghost use Rattle.controller.specs.Aims.{MovesLead};
ghost use Rattle.controller.specs.Turns.{first_into, IsLater};

use crate::aims::Aim;
use crate::choosing::least_rank;
use regions::{Regions, When};
use spec_model::value::Value;

/// The goal aimed at from a state, and whether it stayed.
pub fn aimed<G: Regions>(g: &mut G, holds: &[G::R], goal: usize, state: &[Value]) -> (usize, bool)
    requires goal { goal < length holds.now }
    requires holds { AreSomewhere (G.kept g.old) holds.now }
    ensures aim { let k = G.kept g.old in (s : State) (m : Memory) → RegionsAre k holds.now (goal_set k.game) → length holds.now ≡ length (goal_sets k.game) →
        IsTrue (is_state k.game s) → listed s ≡ state.now → m.goal ≡ goal →
        (result.0 ≡ goal_aimed k.game (Some s) m) × (result.1 ≡ goal_stays k.game (Some s) m) }
    ensures within { result.0 < length holds.now }
    ensures held { Stays (G.kept g.old) (G.kept g.new) }
    ensures keeps { IsSameGame (G.kept g.old) (G.kept g.new) }
{
    if !g.has(&holds[goal], state) {
        (goal, true)
    } else if goal + 1 == holds.len() {
        (0, false)
    } else {
        (goal + 1, false)
    }
}

/// Whether the play goes on waiting: the goal stayed, and so does the rank.
fn waits_on(stays: bool, reached: usize, rank: usize) -> bool
    requires { reached + 1 < 2 ^ 64 }
    ensures { result ≡ (stays && (suc reached == rank)) }
{
    stays && reached + 1 == rank
}

/// Writes the first output that leads into a part.
fn wait<G: Regions>(
    g: &mut G,
    parts: &[G::Move],
    index: usize,
    state: &[Value],
    input: &[Value],
    out: &mut [Value],
)
    requires index { index < length parts.now }
    requires parts { (sets : ℕ → StateSet) × MovesLead (G.kept g.old) When.Later parts.now sets }
    requires room { length out.old ≡ output_count (G.kept g.old).game }
    ensures first { let k = G.kept g.old in (sets : ℕ → StateSet) (b : Before) (reply : Assignment) → MovesLead k When.Later parts.now sets →
        AreBefore k.game When.Later b state.now → first_into k.game When.Later (sets index) b input.now ≡ Some reply → out.new ≡ reply }
    ensures held { Stays (G.kept g.old) (G.kept g.new) }
    ensures keeps { IsSameGame (G.kept g.old) (G.kept g.new) }
{
    g.first_out(&parts[index], state, input, out);
}

/// The number of the least layer that a legal output leads into, and whether the play goes on waiting for the same
/// assumption. The output is written: while waiting the first that leads into the part, else into the layer.
pub fn lead<G: Regions>(
    g: &mut G,
    aims: &[Aim<G>],
    state: &[Value],
    rank: usize,
    index: usize,
    stays: bool,
    input: &[Value],
    out: &mut [Value],
) -> (usize, bool)
    requires turn { (l : LayerSets) × (s : State) × (m : Memory) × (y : Assignment) × (next : Memory) × IsLater (G.kept g.old) aims.now state.now rank index stays input.now l s m y next }
    requires room { length out.old ≡ output_count (G.kept g.old).game }
    ensures chosen { let k = G.kept g.old in (l : LayerSets) (s : State) (m : Memory) (y : Assignment) (next : Memory) → IsLater k aims.now state.now rank index stays input.now l s m y next →
        (suc result.0 ≡ next.rank) × (out.new ≡ y) × (result.1 ≡ waits_lem k.game (Some s) m next.rank) }
    ensures held { Stays (G.kept g.old) (G.kept g.new) }
    ensures keeps { IsSameGame (G.kept g.old) (G.kept g.new) }
{
    let reached = least_rank(g, aims, state, input, out);
    if waits_on(stays, reached, rank) {
        wait(g, &aims[reached].parts, index, state, input, out);
        (reached, true)
    } else {
        (reached, false)
    }
}
