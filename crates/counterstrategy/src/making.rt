//! The moves into the layers and into the iterates, as they are made for a strategy.

ghost use Rattle.std.specs.Prelude.{◌≡◌, ◌++◌, ◌∷◌, [], None, List, Vec, IfErr, OnOk, OnErr};
ghost use Rattle.std.specs.declared.alloc.Global.{Global};
ghost use Rattle.spec_model.specs.declared.value.Owner.{Owner};
ghost use Rattle.regions.specs.declared.types.When.{When};
ghost use Rattle.regions.specs.Kept.{HasRegion, IsSameGame};
ghost use Rattle.gr1_sys.specs.Held.{HasEach};
ghost use Rattle.gr1_env.specs.Held.{list_regions};
ghost use Rattle.strategy_parts.specs.Owned.{move_items};
ghost use Rattle.strategy_parts.specs.Told.{Tale, IsIn, AreTargets, TellsHalt, leadings};
ghost use Rattle.counterstrategy.specs.Settled.{tops};
ghost use Rattle.counterstrategy.specs.Owned.{list_items, goal_lists, goal_delays, all_lists, all_delays, AreLike};
ghost use Rattle.counterstrategy.specs.Made.{Adds, AddsSome};

use gr1_env::{EnvGoal, EnvLayer};
use regions::{Halt, Regions, When};
use spec_model::value::Owner;
use std::alloc::Global;
use strategy_parts::moves_into;

/// Adds the moves into a region.
fn add_moves<G: Regions>(
    g: &mut G,
    when: When,
    r: &G::R,
    moves: &mut Vec<G::Move>,
) -> Result<(), Halt>
    requires free { (G.kept g.old).jam ≡ None }
    requires region { HasRegion (G.kept g.old) r.now }
    ensures added { let k = G.kept g.old in OnOk result (Adds move_items k (G.kept g.new) moves.old.items moves.new.items (leadings k Owner.Env when (r.now ∷ []))) }
    ensures halted { OnErr result (AddsSome move_items (G.kept g.old) (G.kept g.new) moves.old.items moves.new.items) }
    ensures told { let k = G.kept g.old in (tale : Tale) → tale.who ≡ Owner.Env → IsIn (k.set r.now) (tale.targets when) → IfErr result (TellsHalt k (G.kept g.new) tale) }
    ensures keeps { IsSameGame (G.kept g.old) (G.kept g.new) }
{
    if moves.reserve(1).is_err() {
        return Err(Halt::Memory);
    }
    match g.in_moves(when, r) {
        Ok(m) => {
            moves.push_reserved(m);
            Ok(())
        }
        Err(halt) => Err(halt),
    }
}

/// Adds the moves into no states, and those into each layer.
pub fn add_layers<G: Regions>(
    g: &mut G,
    when: When,
    none: &G::R,
    layers: &[EnvLayer<G>],
    moves: &mut Vec<G::Move>,
) -> Result<(), Halt>
    requires free { (G.kept g.old).jam ≡ None }
    requires regions { HasEach (G.kept g.old) (none.now ∷ tops layers.now) }
    ensures added { let k = G.kept g.old in OnOk result (Adds move_items k (G.kept g.new) moves.old.items moves.new.items (leadings k Owner.Env when (none.now ∷ tops layers.now))) }
    ensures halted { OnErr result (AddsSome move_items (G.kept g.old) (G.kept g.new) moves.old.items moves.new.items) }
    ensures told { let k = G.kept g.old in (tale : Tale) → tale.who ≡ Owner.Env → AreTargets tale when k (none.now ∷ tops layers.now) → IfErr result (TellsHalt k (G.kept g.new) tale) }
    ensures keeps { IsSameGame (G.kept g.old) (G.kept g.new) }
{
    add_moves(g, when, none, moves)?;
    for l in layers {
        add_moves(g, when, &l.z, moves)?;
    }
    Ok(())
}

/// Adds the later moves into each region of a list.
fn add_list<G: Regions>(
    alloc: Global,
    g: &mut G,
    list: &[G::R],
    chains: &mut Vec<Vec<G::Move>>,
) -> Result<(), Halt>
    requires free { (G.kept g.old).jam ≡ None }
    requires regions { HasEach (G.kept g.old) list.now }
    ensures added { let k = G.kept g.old in OnOk result (Adds list_items k (G.kept g.new) chains.old.items chains.new.items (leadings k Owner.Env When.Later list.now)) }
    ensures alike { (done : List (Vec _ Global)) (v : Vec _ Global) → AreLike chains.old.items done → v.items ≡ list.now → OnOk result (AreLike chains.new.items (done ++ v ∷ [])) }
    ensures halted { OnErr result (AddsSome list_items (G.kept g.old) (G.kept g.new) chains.old.items chains.new.items) }
    ensures told { let k = G.kept g.old in (tale : Tale) → tale.who ≡ Owner.Env → AreTargets tale When.Later k list.now → IfErr result (TellsHalt k (G.kept g.new) tale) }
    ensures keeps { IsSameGame (G.kept g.old) (G.kept g.new) }
{
    if chains.reserve(1).is_err() {
        return Err(Halt::Memory);
    }
    match moves_into(alloc, g, Owner::Env, When::Later, list) {
        Ok(moves) => {
            chains.push_reserved(moves);
            Ok(())
        }
        Err(halt) => Err(halt),
    }
}

/// Adds those of each list.
fn add_lists<G: Regions>(
    alloc: Global,
    g: &mut G,
    lists: &[Vec<G::R>],
    chains: &mut Vec<Vec<G::Move>>,
) -> Result<(), Halt>
    requires free { (G.kept g.old).jam ≡ None }
    requires regions { HasEach (G.kept g.old) (list_regions (lists.now)) }
    ensures added { let k = G.kept g.old in OnOk result (Adds list_items k (G.kept g.new) chains.old.items chains.new.items (leadings k Owner.Env When.Later (list_regions (lists.now)))) }
    ensures alike { (done : List (Vec _ Global)) → AreLike chains.old.items done → OnOk result (AreLike chains.new.items (done ++ lists.now)) }
    ensures halted { OnErr result (AddsSome list_items (G.kept g.old) (G.kept g.new) chains.old.items chains.new.items) }
    ensures told { let k = G.kept g.old in (tale : Tale) → tale.who ≡ Owner.Env → AreTargets tale When.Later k (list_regions (lists.now)) → IfErr result (TellsHalt k (G.kept g.new) tale) }
    ensures keeps { IsSameGame (G.kept g.old) (G.kept g.new) }
{
    for list in lists {
        add_list(alloc, g, list, chains)?;
    }
    Ok(())
}

/// Adds those into the iterates of each hold of a layer.
fn add_holds<G: Regions>(
    alloc: Global,
    g: &mut G,
    goals: &[EnvGoal<G>],
    chains: &mut Vec<Vec<G::Move>>,
) -> Result<(), Halt>
    requires free { (G.kept g.old).jam ≡ None }
    requires regions { HasEach (G.kept g.old) (goal_delays goals.now) }
    ensures added { let k = G.kept g.old in OnOk result (Adds list_items k (G.kept g.new) chains.old.items chains.new.items (leadings k Owner.Env When.Later (goal_delays goals.now))) }
    ensures alike { (done : List (Vec _ Global)) → AreLike chains.old.items done → OnOk result (AreLike chains.new.items (done ++ goal_lists goals.now)) }
    ensures halted { OnErr result (AddsSome list_items (G.kept g.old) (G.kept g.new) chains.old.items chains.new.items) }
    ensures told { let k = G.kept g.old in (tale : Tale) → tale.who ≡ Owner.Env → AreTargets tale When.Later k (goal_delays goals.now) → IfErr result (TellsHalt k (G.kept g.new) tale) }
    ensures keeps { IsSameGame (G.kept g.old) (G.kept g.new) }
{
    for goal in goals {
        add_lists(alloc, g, &goal.x, chains)?;
    }
    Ok(())
}

/// Adds those into the iterates of each layer's holds.
pub fn add_delays<G: Regions>(
    alloc: Global,
    g: &mut G,
    layers: &[EnvLayer<G>],
    chains: &mut Vec<Vec<G::Move>>,
) -> Result<(), Halt>
    requires free { (G.kept g.old).jam ≡ None }
    requires regions { HasEach (G.kept g.old) (all_delays layers.now) }
    ensures added { let k = G.kept g.old in OnOk result (Adds list_items k (G.kept g.new) chains.old.items chains.new.items (leadings k Owner.Env When.Later (all_delays layers.now))) }
    ensures alike { (done : List (Vec _ Global)) → AreLike chains.old.items done → OnOk result (AreLike chains.new.items (done ++ all_lists layers.now)) }
    ensures halted { OnErr result (AddsSome list_items (G.kept g.old) (G.kept g.new) chains.old.items chains.new.items) }
    ensures told { let k = G.kept g.old in (tale : Tale) → tale.who ≡ Owner.Env → AreTargets tale When.Later k (all_delays layers.now) → IfErr result (TellsHalt k (G.kept g.new) tale) }
    ensures keeps { IsSameGame (G.kept g.old) (G.kept g.new) }
{
    for l in layers {
        add_holds(alloc, g, &l.goals, chains)?;
    }
    Ok(())
}
