//! Laws of runs by what is remembered at each position alone. These functions do nothing: their contracts are the laws.

ghost use Rattle.spec_model.specs.Games.{GameData};
ghost use Rattle.spec_model.specs.WellMade.{WellMade};
ghost use Rattle.gr1_law.specs.CounterLaws.{LabelsDiffer};
ghost use Rattle.gr1_law.specs.Trails.{RankedTrailsKeep, FollowedTrailsBeat};

/// A run whose ranks fall towards the goal aimed at keeps each recurring guarantee within one round more than the greatest ranks
/// together, whoever made it (Bloem et al. 2012, solving GR(1) games).
pub fn ranked_trails_keep()
    ensures { (g : GameData) → WellMade g → RankedTrailsKeep g }
{}

/// A run whose denials wait for the assumption aimed at, and whose shifts lower the layer, beats each system, whoever made it
/// (Könighofer et al. 2009, counterstrategies).
pub fn followed_trails_beat()
    ensures { (g : GameData) → WellMade g → LabelsDiffer g → FollowedTrailsBeat g }
{}
