//! The iterates of one inner equation, from no states up.

ghost use Rattle.std.specs.Prelude.{◌≡◌, ℕ, [], None, IfOk, IfErr, OnErr};
ghost use Rattle.spec_model.specs.Games.{GameData};
ghost use Rattle.spec_model.specs.Sets.{no_states};
ghost use Rattle.regions.specs.Kept.{HasRegion, HoldsBesides, MakesRegion, IsSameGame};
ghost use Rattle.gr1_sys.specs.Held.{HasTogether, HoldsWithoutAll};
ghost use Rattle.gr1_env.specs.Solution.{rising};
ghost use Rattle.gr1_env.specs.Held.{last_of, Grows, HasDelays};
ghost use Rattle.gr1_env.specs.Moment.{Moment, delay_at};
ghost use Rattle.gr1_env.specs.Told.{AreOfDelay, TellsHalt};

use gr1_sys::{and_in, or_in, spend_all};
use regions::{Halt, Regions};
use std::alloc::Global;

/// The last region, or the one given where there is none.
pub fn last_or<'a, R>(none: &'a R, rs: &'a [R]) -> &'a R
    ensures { result.now ≡ last_of none.now rs.now }
{
    match rs.last() {
        Some(r) => r,
        None => none,
    }
}

/// The value of the equation at `t`.
fn next_delay<G: Regions>(g: &mut G, cover: &G::R, asm: &G::R, t: &G::R) -> Result<G::R, Halt>
    requires free { (G.kept g.old).jam ≡ None }
    requires cover { HasRegion (G.kept g.old) cover.now }
    requires asm { HasRegion (G.kept g.old) asm.now }
    requires t { HasRegion (G.kept g.old) t.now }
    ensures made { let k = G.kept g.old in IfOk result (λ r. MakesRegion k (G.kept g.new) r (rising k.game (k.set cover.now) (k.set asm.now) (k.set t.now))) }
    ensures halted { OnErr result (HoldsBesides (G.kept g.old) (G.kept g.new) []) }
    ensures told { let k = G.kept g.old in (game : GameData) (m : Moment) (a j i r : ℕ) → k.game ≡ game → AreOfDelay game m a j i (k.set cover.now) (k.set asm.now) → k.set t.now ≡ delay_at game m a j i r → IfErr result (TellsHalt game k (G.kept g.new) m) }
    ensures keeps { IsSameGame (G.kept g.old) (G.kept g.new) }
{
    let forced = g.pre_env(t)?;
    let met = or_in(g, forced, asm)?;
    and_in(g, met, cover)
}

/// The iterates with the next one; or, and then `true`, as they are where the next one equals the last.
fn grow<G: Regions>(
    alloc: Global,
    g: &mut G,
    cover: &G::R,
    asm: &G::R,
    none: &G::R,
    mut rs: Vec<G::R>,
) -> Result<(Vec<G::R>, bool), Halt>
    requires free { (G.kept g.old).jam ≡ None }
    requires cover { HasRegion (G.kept g.old) cover.now }
    requires asm { HasRegion (G.kept g.old) asm.now }
    requires none { HasRegion (G.kept g.old) none.now }
    requires rs { HasTogether (G.kept g.old) rs.items }
    ensures grown { let k = G.kept g.old in let last = k.set (last_of none.now rs.items) in
        IfOk result (λ r. Grows k (G.kept g.new) last (rising k.game (k.set cover.now) (k.set asm.now) last) rs.items r.0.items r.1) }
    ensures halted { OnErr result (HoldsWithoutAll (G.kept g.old) (G.kept g.new) rs.items) }
    ensures told { let k = G.kept g.old in (game : GameData) (m : Moment) (a j i r : ℕ) → k.game ≡ game → AreOfDelay game m a j i (k.set cover.now) (k.set asm.now) →
        k.set (last_of none.now rs.items) ≡ delay_at game m a j i r → IfErr result (TellsHalt game k (G.kept g.new) m) }
    ensures keeps { IsSameGame (G.kept g.old) (G.kept g.new) }
{
    if rs.reserve(1).is_err() {
        spend_all(g, rs);
        return Err(Halt::Memory);
    }
    match next_delay(g, cover, asm, last_or(none, &rs)) {
        Ok(next) => {
            if g.same(last_or(none, &rs), &next) {
                g.spend(next);
                Ok((rs, true))
            } else {
                rs.push_reserved(next);
                Ok((rs, false))
            }
        }
        Err(halt) => {
            spend_all(g, rs);
            Err(halt)
        }
    }
}

/// The iterates of ranks 1 to the greatest: each differs from the one before it, and the last equals its own value.
pub fn delays<G: Regions>(
    alloc: Global,
    g: &mut G,
    cover: &G::R,
    asm: &G::R,
    none: &G::R,
) -> Result<Vec<G::R>, Halt>
    requires free { (G.kept g.old).jam ≡ None }
    requires cover { HasRegion (G.kept g.old) cover.now }
    requires asm { HasRegion (G.kept g.old) asm.now }
    requires none { HasRegion (G.kept g.old) none.now }
    requires empty { (G.kept g.old).set none.now ≡ no_states }
    ensures made { let k = G.kept g.old in IfOk result (λ rs. HasDelays k.game k (G.kept g.new) (k.set cover.now) (k.set asm.now) rs.items) }
    ensures halted { OnErr result (HoldsBesides (G.kept g.old) (G.kept g.new) []) }
    ensures told { let k = G.kept g.old in (game : GameData) (m : Moment) (a j i : ℕ) → k.game ≡ game → AreOfDelay game m a j i (k.set cover.now) (k.set asm.now) → IfErr result (TellsHalt game k (G.kept g.new) m) }
    ensures keeps { IsSameGame (G.kept g.old) (G.kept g.new) }
{
    let mut rs = Vec::new(alloc);
    loop {
        let (more, settled) = grow(alloc, g, cover, asm, none, rs)?;
        rs = more;
        if settled {
            return Ok(rs);
        }
    }
}
