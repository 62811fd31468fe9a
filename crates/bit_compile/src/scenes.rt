//! What formulas are compiled in: the bits of a game's states, and the hidden tables that may be read.

use crate::codes::Codes;
use spec_model::game::{Game, Hidden};
use spec_model::value::Owner;
use spec_model::variables::{count_inputs, count_outputs};
use std::alloc::Global;

/// The bits of a game's states, and its first hidden tables, which may be read.
#[derive(Clone, Copy)]
pub struct Scene<'a> {
    pub codes: &'a Codes,
    pub game: &'a Game,
    pub hidden: &'a [Hidden],
}

impl<'a> Scene<'a> {
    ghost use Rattle.std.specs.Prelude.{◌≡◌, ◌<◌, length, take};
    ghost use Rattle.bit_compile.specs.Compiled.{place_of};
    ghost use Rattle.bit_compile.specs.Scenes.{IsScene, game_seen, codes_seen};

    /// What may be read before the table of this number.
    pub fn before(&self, h: usize) -> Scene<'a>
        requires known { h < length self.now.hidden.now }
        ensures codes { codes_seen result ≡ codes_seen self.now }
        ensures game { game_seen result ≡ game_seen self.now }
        ensures hidden { result.hidden.now ≡ take h self.now.hidden.now }
    {
        Scene {
            codes: self.codes,
            game: self.game,
            hidden: &self.hidden[..h],
        }
    }

    /// The allocator.
    pub fn alloc(&self) -> Global {
        *self.game.vars.allocator()
    }

    /// The place of a variable in a state.
    pub fn place(&self, k: usize) -> usize
        requires scene { IsScene self.now }
        requires known { k < length (game_seen self.now).variables }
        ensures place { result ≡ place_of (game_seen self.now) k }
        ensures within { result < length (codes_seen self.now) }
    {
        let vars = &self.game.vars;
        let tables = self.game.hidden.len();
        match vars[k].owner {
            Owner::Env => tables + count_inputs(&vars[..k]),
            Owner::Sys => tables + count_inputs(vars) + count_outputs(&vars[..k]),
        }
    }
}
