//! The hold of one goal above a layer.

ghost use Rattle.std.specs.Prelude.{◌≡◌, ◌<◌, ◌≤◌, ℕ, [], None, IfOk, IfErr, OnErr, length, map};
ghost use Rattle.spec_model.specs.Games.{GameData};
ghost use Rattle.spec_model.specs.Steps.{states_of};
ghost use Rattle.spec_model.specs.Sets.{no_states};
ghost use Rattle.regions.specs.Kept.{Region, States, HasRegion, HoldsBesides, HoldsWithout, MakesRegion, IsSameGame};
ghost use Rattle.gr1_law.specs.Layers.{assumption_sets};
ghost use Rattle.gr1_sys.specs.Solution.{meet};
ghost use Rattle.gr1_sys.specs.Moment.{IsGoal};
ghost use Rattle.gr1_sys.specs.Held.{HasEach};
ghost use Rattle.gr1_env.specs.Solution.{cover_of};
ghost use Rattle.gr1_env.specs.Held.{list_regions, last_set, HaveDelays, TurnsTo, Steps, HasHold};
ghost use Rattle.gr1_env.specs.Moment.{Moment, cover_at, delay_at};
ghost use Rattle.gr1_env.specs.Told.{base_for, layer_number, AreOfHold, TellsHalt, TellsHold};

use crate::delays::{delays, last_or};
use crate::layers::EnvGoal;
use crate::spending::spend_lists;
use gr1_sys::and_in;
use regions::{Halt, Regions};
use std::alloc::Global;

/// The iterates for each assumption, where the equations cover these states.
fn all_delays<G: Regions>(
    alloc: Global,
    g: &mut G,
    cover: &G::R,
    asms: &[G::R],
    none: &G::R,
) -> Result<Vec<Vec<G::R>>, Halt>
    requires free { (G.kept g.old).jam ≡ None }
    requires cover { HasRegion (G.kept g.old) cover.now }
    requires asms { HasEach (G.kept g.old) asms.now }
    requires none { HasRegion (G.kept g.old) none.now }
    requires empty { (G.kept g.old).set none.now ≡ no_states }
    ensures made { let k = G.kept g.old in IfOk result (λ xs. HaveDelays k.game k (G.kept g.new) (k.set cover.now) (map k.set asms.now) xs.items) }
    ensures halted { OnErr result (HoldsBesides (G.kept g.old) (G.kept g.new) []) }
    ensures told { let k = G.kept g.old in (game : GameData) (m : Moment) (a j : ℕ) → k.game ≡ game → IsGoal game j → k.set cover.now ≡ cover_at game m a j → map k.set asms.now ≡ assumption_sets game → IfErr result (TellsHalt game k (G.kept g.new) m) }
    ensures keeps { IsSameGame (G.kept g.old) (G.kept g.new) }
{
    let Ok(mut xs) = Vec::with_capacity(alloc, asms.len()) else {
        return Err(Halt::Memory);
    };
    for asm in asms {
        match delays(alloc, g, cover, asm, none) {
            Ok(rs) => xs.push_reserved(rs),
            Err(halt) => {
                spend_lists(g, xs);
                return Err(halt);
            }
        }
    }
    Ok(xs)
}

/// The iterates for each assumption, for the hold's value `y`.
fn delays_for<G: Regions>(
    alloc: Global,
    g: &mut G,
    base: &G::R,
    y: &G::R,
    asms: &[G::R],
    none: &G::R,
) -> Result<Vec<Vec<G::R>>, Halt>
    requires free { (G.kept g.old).jam ≡ None }
    requires base { HasRegion (G.kept g.old) base.now }
    requires y { HasRegion (G.kept g.old) y.now }
    requires asms { HasEach (G.kept g.old) asms.now }
    requires none { HasRegion (G.kept g.old) none.now }
    requires empty { (G.kept g.old).set none.now ≡ no_states }
    ensures made { let k = G.kept g.old in IfOk result (λ xs. HaveDelays k.game k (G.kept g.new) (cover_of k.game (k.set base.now) (k.set y.now)) (map k.set asms.now) xs.items) }
    ensures halted { OnErr result (HoldsBesides (G.kept g.old) (G.kept g.new) []) }
    ensures told { let k = G.kept g.old in (game : GameData) (m : Moment) (a j : ℕ) → k.game ≡ game → AreOfHold game m a j (k.set base.now) (k.set y.now) (map k.set asms.now) → IfErr result (TellsHalt game k (G.kept g.new) m) }
    ensures keeps { IsSameGame (G.kept g.old) (G.kept g.new) }
{
    let forced = g.pre_env(y)?;
    let cover = and_in(g, forced, base)?;
    match all_delays(alloc, g, &cover, asms, none) {
        Ok(xs) => {
            g.spend(cover);
            Ok(xs)
        }
        Err(halt) => {
            g.spend(cover);
            Err(halt)
        }
    }
}

/// The states that are in the last iterate for each assumption.
fn common<G: Regions>(g: &mut G, none: &G::R, xs: &[Vec<G::R>]) -> Result<G::R, Halt>
    requires free { (G.kept g.old).jam ≡ None }
    requires none { HasRegion (G.kept g.old) none.now }
    requires xs { HasEach (G.kept g.old) (list_regions xs.now) }
    ensures made { let k = G.kept g.old in IfOk result (λ r. MakesRegion k (G.kept g.new) r (meet k.game (last_set k none.now xs.now) (length xs.now))) }
    ensures halted { OnErr result (HoldsBesides (G.kept g.old) (G.kept g.new) []) }
    ensures told { let k = G.kept g.old in (game : GameData) (m : Moment) (a j : ℕ) → k.game ≡ game → IsGoal game j → length xs.now ≤ length (assumption_sets game) →
        ((i : ℕ) → i < length xs.now → last_set k none.now xs.now i ≡ delay_at game m a j i (length (states_of game))) → IfErr result (TellsHalt game k (G.kept g.new) m) }
    ensures keeps { IsSameGame (G.kept g.old) (G.kept g.new) }
{
    let mut met = g.all()?;
    for rs in xs {
        met = and_in(g, met, last_or(none, rs))?;
    }
    Ok(met)
}

/// The iterates for each assumption, for the hold's value `y`, and the value that follows.
fn turn<G: Regions>(
    alloc: Global,
    g: &mut G,
    base: &G::R,
    y: &G::R,
    asms: &[G::R],
    none: &G::R,
) -> Result<(Vec<Vec<G::R>>, G::R), Halt>
    requires free { (G.kept g.old).jam ≡ None }
    requires base { HasRegion (G.kept g.old) base.now }
    requires y { HasRegion (G.kept g.old) y.now }
    requires asms { HasEach (G.kept g.old) asms.now }
    requires none { HasRegion (G.kept g.old) none.now }
    requires empty { (G.kept g.old).set none.now ≡ no_states }
    ensures turned { let k = G.kept g.old in IfOk result (λ r. TurnsTo k.game k (G.kept g.new) (k.set base.now) (k.set y.now) (map k.set asms.now) r.0.items r.1) }
    ensures halted { OnErr result (HoldsBesides (G.kept g.old) (G.kept g.new) []) }
    ensures told { let k = G.kept g.old in (game : GameData) (m : Moment) (a j : ℕ) → k.game ≡ game → AreOfHold game m a j (k.set base.now) (k.set y.now) (map k.set asms.now) → IfErr result (TellsHalt game k (G.kept g.new) m) }
    ensures keeps { IsSameGame (G.kept g.old) (G.kept g.new) }
{
    let xs = delays_for(alloc, g, base, y, asms, none)?;
    match common(g, none, &xs) {
        Ok(next) => Ok((xs, next)),
        Err(halt) => {
            spend_lists(g, xs);
            Err(halt)
        }
    }
}

/// What one value of a hold leads to.
pub enum Iteration<G: Regions> {
    /// It is the hold, and these are its iterates.
    Settled(EnvGoal<G>),
    /// This value follows.
    Next(G::R),
}

/// The value with its iterates, where the next value is the same, or else the next value. The value is spent then, with its
/// iterates.
fn one_value<G: Regions>(
    alloc: Global,
    g: &mut G,
    base: &G::R,
    y: G::R,
    asms: &[G::R],
    none: &G::R,
) -> Result<Iteration<G>, Halt>
    requires free { (G.kept g.old).jam ≡ None }
    requires base { HasRegion (G.kept g.old) base.now }
    requires y { HasRegion (G.kept g.old) y }
    requires asms { HasEach (G.kept g.old) asms.now }
    requires none { HasRegion (G.kept g.old) none.now }
    requires empty { (G.kept g.old).set none.now ≡ no_states }
    ensures steps { let k = G.kept g.old in IfOk result (λ s. Steps k.game k (G.kept g.new) (k.set base.now) (map k.set asms.now) y (k.set y) s) }
    ensures halted { let k = G.kept g.old in OnErr result (HoldsWithout k (G.kept g.new) (Region y) (States (k.set y))) }
    ensures told { let k = G.kept g.old in (game : GameData) (m : Moment) (a j : ℕ) → k.game ≡ game → AreOfHold game m a j (k.set base.now) (k.set y) (map k.set asms.now) → IfErr result (TellsHalt game k (G.kept g.new) m) }
    ensures keeps { IsSameGame (G.kept g.old) (G.kept g.new) }
{
    match turn(alloc, g, base, &y, asms, none) {
        Ok((xs, next)) => {
            if g.same(&y, &next) {
                g.spend(next);
                Ok(Iteration::Settled(EnvGoal { y, x: xs }))
            } else {
                spend_lists(g, xs);
                g.spend(y);
                Ok(Iteration::Next(next))
            }
        }
        Err(halt) => {
            g.spend(y);
            Err(halt)
        }
    }
}

/// The hold, with its iterates: the greatest set that is its own value.
pub fn hold<G: Regions>(
    alloc: Global,
    g: &mut G,
    base: &G::R,
    asms: &[G::R],
    none: &G::R,
) -> Result<EnvGoal<G>, Halt>
    requires free { (G.kept g.old).jam ≡ None }
    requires base { HasRegion (G.kept g.old) base.now }
    requires asms { HasEach (G.kept g.old) asms.now }
    requires none { HasRegion (G.kept g.old) none.now }
    requires empty { (G.kept g.old).set none.now ≡ no_states }
    ensures made { let k = G.kept g.old in IfOk result (λ e. HasHold k.game k (G.kept g.new) (k.set base.now) (map k.set asms.now) e) }
    ensures halted { OnErr result (HoldsBesides (G.kept g.old) (G.kept g.new) []) }
    ensures told { let k = G.kept g.old in (game : GameData) (a j : ℕ) → k.game ≡ game → IsGoal game j → k.set base.now ≡ base_for game (layer_number game a) j → map k.set asms.now ≡ assumption_sets game →
        IfErr result (TellsHold game k (G.kept g.new) a j) }
    ensures keeps { IsSameGame (G.kept g.old) (G.kept g.new) }
{
    let mut y = g.all()?;
    loop {
        match one_value(alloc, g, base, y, asms, none)? {
            Iteration::Settled(e) => return Ok(e),
            Iteration::Next(next) => y = next,
        }
    }
}
