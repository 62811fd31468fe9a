//! Small functions over any regions, which show how to use the contract.

ghost use Rattle.std.specs.Prelude.{◌≡◌, ◌↔◌, [], None, Some, IfOk, OnErr, IsErrOf, IsTrue};
ghost use Rattle.spec_model.specs.Sets.{either, pre_sys, pre_env, IsGreatest};
ghost use Rattle.regions.specs.Kept.{Region, States, HasRegion, HoldsBesides, HoldsWithout, MakesRegion, IsSameGame, JamAdds, Replaces};
ghost use Rattle.regions.specs.Worked.{IsForced, TellsJam};

use crate::regions::Regions;
use crate::types::Halt;

/// The states from which one player or the other forces the next state into a set of its own.
pub fn one_forces<G: Regions>(g: &mut G, a: &G::R, b: &G::R) -> Result<G::R, Halt>
    requires free { (G.kept g.old).jam ≡ None }
    requires a { HasRegion (G.kept g.old) a.now }
    requires b { HasRegion (G.kept g.old) b.now }
    ensures made { let k = G.kept g.old in
        IfOk result (λ r. MakesRegion k (G.kept g.new) r (either (pre_sys k.game (k.set a.now)) (pre_env k.game (k.set b.now)))) }
    ensures halted { OnErr result (HoldsBesides (G.kept g.old) (G.kept g.new) []) }
    ensures memory { IsErrOf result Halt.Memory → (G.kept g.new).jam ≡ None }
    ensures budget { let k = G.kept g.old in
        IsErrOf result Halt.Budget → (jam : _) × ((G.kept g.new).jam ≡ Some jam) × JamAdds k (IsForced k.game (k.set a.now) (k.set b.now)) jam }
    ensures keeps { IsSameGame (G.kept g.old) (G.kept g.new) }
{
    let x = g.pre_sys(a)?;
    let y = match g.pre_env(b) {
        Ok(y) => y,
        Err(halt) => {
            g.spend(x);
            return Err(halt);
        }
    };
    match g.or(&x, &y) {
        Ok(joined) => {
            g.spend(x);
            g.spend(y);
            Ok(joined)
        }
        Err(halt) => {
            g.spend(x);
            g.spend(y);
            Err(halt)
        }
    }
}

/// The region that `pre_sys` makes of another, in its place, and whether they are the same.
fn forced_into<G: Regions>(g: &mut G, z: G::R) -> Result<(G::R, bool), Halt>
    requires free { (G.kept g.old).jam ≡ None }
    requires z { HasRegion (G.kept g.old) z }
    ensures made { let k = G.kept g.old in
        IfOk result (λ r. Replaces k (G.kept g.new) (Region z) (States (k.set z)) (Region r.0) (States (pre_sys k.game (k.set z)))) }
    ensures settled { let k = G.kept g.old in IfOk result (λ r. IsTrue r.1 ↔ k.set z ≡ pre_sys k.game (k.set z)) }
    ensures halted { let k = G.kept g.old in OnErr result (HoldsWithout k (G.kept g.new) (Region z) (States (k.set z))) }
    ensures told { IsErrOf result Halt.Budget → TellsJam (G.kept g.new) }
    ensures keeps { IsSameGame (G.kept g.old) (G.kept g.new) }
{
    match g.pre_sys(&z) {
        Ok(next) => {
            let settled = g.same(&z, &next);
            g.spend(z);
            Ok((next, settled))
        }
        Err(halt) => {
            g.spend(z);
            Err(halt)
        }
    }
}

/// The greatest set of states in which the system can stay for ever.
pub fn greatest<G: Regions>(g: &mut G) -> Result<G::R, Halt>
    requires free { (G.kept g.old).jam ≡ None }
    ensures made { let new = G.kept g.new in IfOk result (λ z. MakesRegion (G.kept g.old) new z (new.set z)) }
    ensures greatest { let new = G.kept g.new in IfOk result (λ z. IsGreatest (pre_sys new.game) (new.set z)) }
    ensures halted { OnErr result (HoldsBesides (G.kept g.old) (G.kept g.new) []) }
    ensures told { IsErrOf result Halt.Budget → TellsJam (G.kept g.new) }
    ensures keeps { IsSameGame (G.kept g.old) (G.kept g.new) }
{
    let mut z = g.all()?;
    loop {
        let (next, settled) = forced_into(g, z)?;
        z = next;
        if settled {
            return Ok(z);
        }
    }
}
