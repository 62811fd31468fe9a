//! The layers, N and M of five small games: those over rows and those over diagrams are the ones that a plain program finds.

mod plain;

ghost use Rattle.std.specs.Prelude.{◌≡◌, None, IfSome};
ghost use Rattle.spec_model.specs.GameViews.{game_data};
ghost use Rattle.spec_model.specs.WellMade.{WellMade};
ghost use Rattle.regions.specs.Kept.{HasRegion, IsSameGame, Stays};
ghost use Rattle.gr1_sys.specs.Held.{HasEach};
ghost use Rattle.gr1_env.specs.Held.{all_regions};

use gr1_env::{EnvLayer, solve_env};
use hidden_game::expand;
use plain::{Name, Plain, bit, is_state, layer, solved, variables};
use region_bdd::RegionBdd;
use region_rows::RegionRows;
use regions::{Halt, Regions};
use spec_model::game::Game;
use spec_model::value::Value;
use spectra_lexer::lex;
use spectra_parser::parse;
use spectra_types::resolve;
use std::alloc::Global;
use std::test::Fail;

/// The games of the plain program, as texts.
const GAMES: [(Name, &str); 5] = [
    (
        Name::Foretold,
        "spec X env boolean r; sys boolean g; gar alw g <-> next(r);",
    ),
    (
        Name::Blocked,
        "spec X env boolean r; sys boolean g; gar alw g -> r; gar alwEv g;",
    ),
    (
        Name::Crossed,
        "spec X env boolean a; env boolean b; sys boolean g; asm alwEv a; asm alwEv b; asm alw !(a & b); gar alwEv g; gar alw !g;",
    ),
    (
        Name::Granted,
        "spec X env boolean r; sys boolean g; gar alw r -> g; gar alwEv g;",
    ),
    (
        Name::Spent,
        "spec X env boolean a; env boolean b; env boolean c; sys boolean g; sys boolean p; sys boolean q; asm alwEv a; asm alwEv b; asm alwEv c; asm alw !(a & b); asm alw !(a & c); asm alw !(b & c); gar alwEv g; gar alwEv q; gar alw next(p) -> p; gar alw next(q) -> q; gar alw next(g) -> p & !next(p) | q & !next(q);",
    ),
];

/// The budget of diagrams.
const NODES: u32 = 65_537;

/// The game of a text, where it has one.
fn game_of(alloc: Global, text: &[u8]) -> Option<Game>
    ensures { IfSome result (λ game. WellMade (game_data game)) }
{
    let Ok(tokens) = lex(alloc, text) else {
        return None;
    };
    let Ok(tree) = parse(alloc, text, &tokens) else {
        return None;
    };
    let Ok(spec) = resolve(alloc, &[tree]) else {
        return None;
    };
    match expand(alloc, &spec) {
        Ok(game) => Some(game),
        Err(_) => None,
    }
}

fn values(s: u32) -> [Value; 6] {
    [
        Value::Bool(bit(s, 0)),
        Value::Bool(bit(s, 1)),
        Value::Bool(bit(s, 2)),
        Value::Bool(bit(s, 3)),
        Value::Bool(bit(s, 4)),
        Value::Bool(bit(s, 5)),
    ]
}

/// The states of a region, a bit for each.
fn word_of<G: Regions>(g: &mut G, a: &G::R, name: Name) -> u64
    requires { HasRegion (G.kept g.old) a.now }
    ensures held { Stays (G.kept g.old) (G.kept g.new) }
    ensures keeps { IsSameGame (G.kept g.old) (G.kept g.new) }
{
    let mut word = 0u64;
    for s in 0..64u32 {
        let inside = g.has(a, &values(s)[..variables(name)]);
        word |= u64::from(inside && is_state(name, s)) << s;
    }
    word
}

/// Whether the layers are those of the plain program.
fn agree<G: Regions>(g: &mut G, layers: &[EnvLayer<G>], plain: &Plain, name: Name) -> bool
    requires { HasEach (G.kept g.old) (all_regions layers.now) }
    ensures held { Stays (G.kept g.old) (G.kept g.new) }
    ensures keeps { IsSameGame (G.kept g.old) (G.kept g.new) }
{
    for a in 0..layers.len() {
        if word_of(g, &layers[a].z, name) != layer(plain, a) {
            return false;
        }
    }
    true
}

/// Whether the solver and the plain program give the same.
fn same_solution<G: Regions>(alloc: Global, g: &mut G, name: Name) -> Result<bool, Halt>
    requires { (G.kept g.old).jam ≡ None }
    ensures { IsSameGame (G.kept g.old) (G.kept g.new) }
{
    let plain = solved(name);
    match solve_env(alloc, g)? {
        Some(layers) => {
            let same = agree(g, &layers.layers, &plain, name);
            let numbers = layers.n() == plain.n && layers.m() == plain.m;
            layers.spend_all(g);
            Ok(plain.wins && numbers && same)
        }
        None => Ok(!plain.wins),
    }
}

#[test]
fn layers_are_those_of_a_plain_program_over_both_kinds_of_regions(
    rt: HostRuntime,
) -> Result<(), Fail> {
    let alloc = rt.alloc();
    for (name, text) in GAMES {
        let game = game_of(alloc, text.as_bytes()).expect(&rt, "a sound text");
        let mut rows = RegionRows::make(alloc, game)?;
        assert!(rt; same_solution(alloc, &mut rows, name)?, "rows: {text}");
        let game = game_of(alloc, text.as_bytes()).expect(&rt, "a sound text");
        let mut diagrams = RegionBdd::make(alloc, game, NODES, false)?;
        assert!(rt;
            same_solution(alloc, &mut diagrams, name)?,
            "diagrams: {text}"
        );
    }
    Ok(())
}
