//! The states of the goals and of the assumptions, and all moves of a strategy.

ghost use Rattle.std.specs.Prelude.{◌≡◌, ◌++◌, [], None, length, map, IfOk, IfErr, OnOk, OnErr};
ghost use Rattle.spec_model.specs.Sets.{no_states};
ghost use Rattle.regions.specs.Kept.{States, HasRegion, HoldsBesides, IsSameGame};
ghost use Rattle.gr1_law.specs.Layers.{goal_sets, assumption_sets};
ghost use Rattle.gr1_sys.specs.Held.{HasEach};
ghost use Rattle.gr1_env.specs.Held.{all_regions};
ghost use Rattle.strategy_parts.specs.Owned.{Every, MakesAll, region_items};
ghost use Rattle.strategy_parts.specs.Told.{Tale, IsIn, TellsHalt};
ghost use Rattle.counterstrategy.specs.Owned.{moves_in, kit_items};
ghost use Rattle.counterstrategy.specs.Made.{HoldsSome, IsTaleOf, IsBare, HasMoves, IsEquipped, move_meanings, made_meanings, tale_of};

use crate::kit::{Kit, spend_kit};
use crate::making::{add_delays, add_layers};
use gr1_env::EnvLayer;
use regions::{Halt, Regions, When};
use std::alloc::Global;
use strategy_parts::{Wanted, recurring_regions, spend_regions};

/// The states of each goal, and of each assumption.
fn goal_regions<G: Regions>(alloc: Global, g: &mut G) -> Result<(Vec<G::R>, Vec<G::R>), Halt>
    requires free { (G.kept g.old).jam ≡ None }
    ensures made { let k = G.kept g.old in IfOk result (λ r. MakesAll k (G.kept g.new) (region_items r.0.items ++ region_items r.1.items) (map States (goal_sets k.game) ++ map States (assumption_sets k.game))) }
    ensures goals { let k = G.kept g.old in IfOk result (λ r. length r.0.items ≡ length (goal_sets k.game)) }
    ensures asms { let k = G.kept g.old in IfOk result (λ r. length r.1.items ≡ length (assumption_sets k.game)) }
    ensures halted { OnErr result (HoldsBesides (G.kept g.old) (G.kept g.new) []) }
    ensures told { let k = G.kept g.old in (tale : Tale) → Every (λ s. IsIn s tale.sets) (goal_sets k.game) → Every (λ s. IsIn s tale.sets) (assumption_sets k.game) → IfErr result (TellsHalt k (G.kept g.new) tale) }
    ensures keeps { IsSameGame (G.kept g.old) (G.kept g.new) }
{
    let goals = recurring_regions(alloc, g, Wanted::Guarantees)?;
    match recurring_regions(alloc, g, Wanted::Assumptions) {
        Ok(asms) => Ok((goals, asms)),
        Err(halt) => {
            spend_regions(g, goals);
            Err(halt)
        }
    }
}

/// Makes all moves, where no states are given.
fn fill_from<G: Regions>(
    alloc: Global,
    g: &mut G,
    none: &G::R,
    layers: &[EnvLayer<G>],
    kit: &mut Kit<G>,
) -> Result<(), Halt>
    requires free { (G.kept g.old).jam ≡ None }
    requires none { HasRegion (G.kept g.old) none.now }
    requires empty { (G.kept g.old).set none.now ≡ no_states }
    requires regions { HasEach (G.kept g.old) (all_regions layers.now) }
    requires bare { IsBare kit.old }
    ensures made { let k = G.kept g.old in OnOk result (MakesAll k (G.kept g.new) (moves_in kit.new) (move_meanings k layers.now)) }
    ensures counted { OnOk result (HasMoves kit.new layers.now) }
    ensures halted { OnErr result (HoldsSome (G.kept g.old) (G.kept g.new) (moves_in kit.new)) }
    ensures told { let k = G.kept g.old in (tale : Tale) → IsTaleOf tale k layers.now → IfErr result (TellsHalt k (G.kept g.new) tale) }
    ensures others { (kit.new.goals ≡ kit.old.goals) × (kit.new.asms ≡ kit.old.asms) }
    ensures keeps { IsSameGame (G.kept g.old) (G.kept g.new) }
{
    add_layers(g, When::First, none, layers, &mut kit.first)?;
    add_layers(g, When::Later, none, layers, &mut kit.later)?;
    add_delays(alloc, g, layers, &mut kit.delays)
}

/// Makes all moves.
fn fill<G: Regions>(
    alloc: Global,
    g: &mut G,
    layers: &[EnvLayer<G>],
    kit: &mut Kit<G>,
) -> Result<(), Halt>
    requires free { (G.kept g.old).jam ≡ None }
    requires regions { HasEach (G.kept g.old) (all_regions layers.now) }
    requires bare { IsBare kit.old }
    ensures made { let k = G.kept g.old in OnOk result (MakesAll k (G.kept g.new) (moves_in kit.new) (move_meanings k layers.now)) }
    ensures counted { OnOk result (HasMoves kit.new layers.now) }
    ensures halted { OnErr result (HoldsSome (G.kept g.old) (G.kept g.new) (moves_in kit.new)) }
    ensures told { let k = G.kept g.old in (tale : Tale) → IsTaleOf tale k layers.now → IfErr result (TellsHalt k (G.kept g.new) tale) }
    ensures others { (kit.new.goals ≡ kit.old.goals) × (kit.new.asms ≡ kit.old.asms) }
    ensures keeps { IsSameGame (G.kept g.old) (G.kept g.new) }
{
    let none = g.none()?;
    let filled = fill_from(alloc, g, &none, layers, kit);
    g.spend(none);
    filled
}

/// All that a strategy has besides its layers.
pub fn equip<G: Regions>(alloc: Global, g: &mut G, layers: &[EnvLayer<G>]) -> Result<Kit<G>, Halt>
    requires free { (G.kept g.old).jam ≡ None }
    requires regions { HasEach (G.kept g.old) (all_regions layers.now) }
    ensures made { let k = G.kept g.old in IfOk result (λ kit. MakesAll k (G.kept g.new) (kit_items kit) (made_meanings k layers.now)) }
    ensures equipped { let k = G.kept g.old in IfOk result (λ kit. IsEquipped k.game kit layers.now) }
    ensures halted { OnErr result (HoldsBesides (G.kept g.old) (G.kept g.new) []) }
    ensures told { let k = G.kept g.old in IfErr result (TellsHalt k (G.kept g.new) (tale_of k layers.now)) }
    ensures keeps { IsSameGame (G.kept g.old) (G.kept g.new) }
{
    let (goals, asms) = goal_regions(alloc, g)?;
    let mut kit = Kit {
        goals,
        asms,
        first: Vec::new(alloc),
        later: Vec::new(alloc),
        delays: Vec::new(alloc),
    };
    match fill(alloc, g, layers, &mut kit) {
        Ok(()) => Ok(kit),
        Err(halt) => {
            spend_kit(g, kit);
            Err(halt)
        }
    }
}
