//! The number M of layers, where it is below 2^64.

ghost use Rattle.std.specs.Prelude.{◌≡◌, ◌<◌, MatchOption, sum, map};
ghost use Rattle.std.specs.Vec.{vec_len};
ghost use Rattle.gr1_env.specs.Solved.{greatest, hold_count, denials_of};

use crate::layers::{EnvGoal, EnvLayer};
use regions::Regions;

/// How many elements the lists have together.
fn total<T>(xs: &[Vec<T>]) -> Option<u64>
    ensures { MatchOption result (18446744073709551615 < sum (map vec_len xs.now)) (λ n. n ≡ sum (map vec_len xs.now)) }
{
    let mut n: u64 = 0;
    for rs in xs {
        n = n.checked_add(rs.len() as u64)?;
    }
    Some(n)
}

/// The most iterates of one of the holds.
fn most_of<G: Regions>(goals: &[EnvGoal<G>]) -> Option<u64>
    ensures { MatchOption result (18446744073709551615 < greatest hold_count goals.now) (λ n. n ≡ greatest hold_count goals.now) }
{
    let mut most: u64 = 0;
    for e in goals {
        most = most.max(total(&e.x)?);
    }
    Some(most)
}

/// One more than the most iterates of one hold.
pub fn denials<G: Regions>(layers: &[EnvLayer<G>]) -> Option<u64>
    ensures { MatchOption result (18446744073709551615 < denials_of layers.now) (λ n. n ≡ denials_of layers.now) }
{
    let mut most: u64 = 0;
    for layer in layers {
        most = most.max(most_of::<G>(&layer.goals)?);
    }
    most.checked_add(1)
}
