//! K of small games, and N and M of one, by hand.

ghost use Rattle.spec_model.specs.Realizable.{IsRealizable};
ghost use Rattle.spec_model.specs.GameRules.{rules_of_game};
ghost use Rattle.gr1_law.specs.Worked.{light, permitted, dead_end, HasRounds, stuck, HasDenials};

/// Where one output is to be true again and again, K is 3: the ranks are 1 where it is true, and 2 elsewhere.
pub fn a_recurring_output_has_three_rounds()
    ensures { HasRounds light 3 }
{}

/// Where the output is permitted only with an input that recurs, K is 3: the rank is 1 also where the input is false, since
/// the output may wait for it.
pub fn a_permitted_output_has_three_rounds()
    ensures { HasRounds permitted 3 }
{}

/// Where no second input is legal each state has the rank 1. So K is 2, and the sum of the ranks is too few: the first
/// position is a round, and can't meet the goal.
pub fn the_sum_of_ranks_is_too_few()
    ensures rounds { HasRounds dead_end 2 }
    ensures too_few { IsRealizable (rules_of_game dead_end) 1 → ⊥ }
{}

/// Where no second output is legal the environment's first layer has every state, each with the rank 1. So N is 1 and M is 2: the
/// only position is denied, and need not meet the assumption that recurs.
pub fn a_stuck_system_has_two_denials()
    ensures { HasDenials stuck 1 2 }
{}
