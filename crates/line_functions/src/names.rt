//! Whether a formula names a hidden table or a variable, itself or through the atoms of hidden tables.

ghost use Rattle.std.specs.Prelude.{◌≡◌, map, get_or, false, [], IfOk};
ghost use Rattle.spec_model.specs.Views.{formula};
ghost use Rattle.spec_model.specs.GameViews.{game_data, hidden_data};
ghost use Rattle.game_values.specs.Safety.{formulas_in};
ghost use Rattle.bit_compile.specs.Compiled.{place_of};
ghost use Rattle.line_functions.specs.Names.{same_time, table_names as table_names_lem, marks_after, marks_of as marks_of_lem};
ghost use Rattle.line_functions.specs.Asking.{ArePlaces, IsAsked, game_asked, names_asked, some_names_asked};

use game_values::seen::At;
use spec_model::expr::Expr;
use spec_model::game::{Game, Hidden};
use std::alloc::{AllocError, Global};

/// Which slot is asked about, at which time, and what is known of names.
#[derive(Clone, Copy)]
pub struct Asked<'a> {
    pub game: &'a Game,
    /// The slot of each variable.
    pub places: &'a [usize],
    /// For each hidden table that may be read, whether its entries name the slot.
    pub marks: &'a [bool],
    pub slot: usize,
    pub time: At,
}

impl<'a> Asked<'a> {
    /// The slot of a variable. One that isn't there would have that of the first.
    fn place(&self, x: usize) -> usize
        requires { IsAsked self.now }
        ensures { result ≡ place_of (game_asked self.now) x }
    {
        if x < self.places.len() {
            self.places[x]
        } else {
            self.game.hidden.len()
        }
    }
}

fn is_same_time(a: At, b: At) -> bool
    ensures { result ≡ same_time a b }
{
    match a {
        At::Now => match b {
            At::Now => true,
            At::Next => false,
        },
        At::Next => match b {
            At::Now => false,
            At::Next => true,
        },
    }
}

fn mark(marks: &[bool], h: usize) -> bool
    ensures { result ≡ get_or marks.now h false }
{
    h < marks.len() && marks[h]
}

/// Whether an expression that is read at this time names the slot.
#[cycle(names)]
pub fn names(asked: &Asked, at: At, e: &Expr) -> bool
    requires { IsAsked asked.now }
    ensures { result ≡ names_asked asked.now at (formula e.now) }
{
    match e {
        Expr::Const(_) => false,
        Expr::Var(x) => is_same_time(at, asked.time) && asked.place(*x as usize) == asked.slot,
        Expr::Table(h, _) => is_same_time(at, asked.time) && mark(asked.marks, *h as usize),
        Expr::Next(a) => names(asked, At::Next, a),
        Expr::Not(a) => names(asked, at, a),
        Expr::Mod(a, _) => names(asked, at, a),
        Expr::And(es) => some_names(asked, at, es),
        Expr::Or(es) => some_names(asked, at, es),
        Expr::Past(_, es) => some_names(asked, at, es),
        Expr::Implies(a, b) => names(asked, at, a) || names(asked, at, b),
        Expr::Iff(a, b) => names(asked, at, a) || names(asked, at, b),
        Expr::Cmp(_, a, b) => names(asked, at, a) || names(asked, at, b),
        Expr::Add(a, b) => names(asked, at, a) || names(asked, at, b),
        Expr::Sub(a, b) => names(asked, at, a) || names(asked, at, b),
        Expr::Mul(a, b) => names(asked, at, a) || names(asked, at, b),
    }
}

#[cycle(names)]
fn some_names(asked: &Asked, at: At, es: &[Expr]) -> bool
    requires { IsAsked asked.now }
    ensures { result ≡ some_names_asked asked.now at (formulas_in es.now) }
{
    for e in es {
        if names(asked, at, e) {
            return true;
        }
    }
    false
}

/// Whether the entries of the table behind those that are marked name a slot, at the time of the entry.
fn table_names(game: &Game, places: &[usize], marks: &[bool], slot: usize, h: &Hidden) -> bool
    requires { ArePlaces (game_data game.now) places.now }
    ensures { result ≡ table_names_lem (game_data game.now) slot marks.now (hidden_data h.now) }
{
    let asked = Asked {
        game,
        places,
        marks,
        slot,
        time: At::Now,
    };
    marks.len() == slot || some_names(&asked, At::Now, &h.atoms)
}

/// For each of these hidden tables, whether its entries name a slot. The atoms of one read only earlier ones.
fn marks_over(
    alloc: Global,
    game: &Game,
    places: &[usize],
    slot: usize,
    hidden: &[Hidden],
) -> Result<Vec<bool>, AllocError>
    requires { ArePlaces (game_data game.now) places.now }
    ensures { IfOk result (λ marks. marks.items ≡ marks_after (game_data game.now) slot [] (map hidden_data hidden.now)) }
{
    let mut marks = Vec::new(alloc);
    for h in hidden {
        let names_it = table_names(game, places, &marks, slot, h);
        marks.push(names_it)?;
    }
    Ok(marks)
}

/// For each hidden table of the game, whether its entries name a slot.
pub fn marks_of(
    alloc: Global,
    game: &Game,
    places: &[usize],
    slot: usize,
) -> Result<Vec<bool>, AllocError>
    requires { ArePlaces (game_data game.now) places.now }
    ensures { IfOk result (λ marks. marks.items ≡ marks_of_lem (game_data game.now) slot) }
{
    marks_over(alloc, game, places, slot, &game.hidden)
}
