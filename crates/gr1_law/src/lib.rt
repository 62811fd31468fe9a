//! The winning states of both sides and their layers, the choices of both, and what follows for every play.
//!
//! The definitions are sets of states given by equations, and choices by recursion on the play (Bloem et al. 2012, solving
//! GR(1) games; Könighofer et al. 2009, counterstrategies). There is no program here: the solvers, the strategies and the
//! verdict cite the laws. K, N, M, the rule that keeps one violated assumption until the rank falls, and the one by which
//! assumptions are aimed at in turn are this project's own.
//!
//! Contract: `laws::chosen_plays_keep`, a run of chosen outputs is a play that keeps each recurring guarantee within K
//! rounds; `laws::winning_is_told`, there is one Z and one K; `specification_laws`, the same of a specification that the
//! game agrees with, with K within its bound; `env_laws::denials_are_told`, there is one N and one M;
//! `env_laws::sides_are_dual`, the environment's last layer has the states outside Z; `counter_laws::answered_plays_beat`, a
//! run of given inputs is a play that beats the system within N shifts and M denials in a row; `specification_laws::one_wins`;
//! `trail_laws`, what follows of a run from what is remembered at its positions, whoever made it.
//! Path: regions → **layers** → strategy → verdict.
#![tactic(auto)]

pub mod counter_laws;
pub mod env_laws;
pub mod laws;
pub mod specification_laws;
pub mod trail_laws;
pub mod worked;
