//! The object: a game, its diagrams, and what is held.

ghost use Rattle.std.specs.Prelude.{◌≡◌};
ghost use Rattle.std.specs.Coded.{Coded-set};
ghost use Rattle.spec_model.specs.GameViews.{game_data};
ghost use Rattle.bit_compile.specs.Domains.{state_domains, level_count};
ghost use Rattle.region_bdd.specs.Object.{IsObject};
ghost use Rattle.region_bdd.specs.Room.{IsRoom};
ghost use Rattle.region_bdd.specs.One.{object_is_one, room_is_one};

use crate::ending::{release_own, release_slots};
use crate::own::{Own, Refused};
use crate::search::Search;
use crate::slots::Slots;
use bdd_bits::Diagrams;
use bdd_sets::moves::NextLevels;
use bit_compile::Codes;
use spec_model::game::Game;

/// Regions over a game of any size.
pub struct RegionBdd {
    pub game: Game,
    pub diagrams: Diagrams,
    pub own: Own,
    pub levels: NextLevels,
    pub slots: Slots,
    pub refused: Option<Refused>,
    pub codes: Codes,
    pub search: Search,
    pub ghost whole: { IsObject (game_data game) diagrams own levels slots.slots.items refused } by { object_is_one (game_data game) diagrams own levels slots.slots.items refused },
    pub ghost coded: { codes ≡ state_domains (game_data game) } by { Coded-set codes-code codes (state_domains (game_data game)) },
    pub ghost room: { IsRoom (level_count codes) own search } by { room_is_one (level_count codes) own search },
}

/// An object that is let go gives back each diagram that it keeps, for itself and in slots.
impl Drop for RegionBdd {
    fn drop(self) {
        let RegionBdd {
            game: _,
            mut diagrams,
            own,
            levels: _,
            slots,
            refused: _,
            codes: _,
            search: _,
        } = self;
        release_own(&mut diagrams, own);
        release_slots(&mut diagrams, slots);
    }
}
