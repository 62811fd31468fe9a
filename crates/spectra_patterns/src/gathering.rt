//! The different past operators of lines, as long as there aren't too many.

ghost use Rattle.std.specs.Prelude.{◌≡◌, ◌<◌, length, map, flat_map, OnOk, IsErrOf};
ghost use Rattle.spec_model.specs.Syntax.{PastOf, TriggerUse, regulars};
ghost use Rattle.spec_model.specs.Views.{formula, regular, trigger_data, content_data};
ghost use Rattle.spec_model.specs.Sizes.{past_trees, past_trees_of_all, atoms_of, atoms_of_all};
ghost use Rattle.game_values.specs.Safety.{formulas_in};
ghost use Rattle.past_bits.specs.Entries.{with_operator, added};
ghost use Rattle.past_bits.specs.Bits.{tree_of};
ghost use Rattle.spectra_patterns.specs.declared.stop.Stop.TheVariants.{Many};
ghost use Rattle.spectra_patterns.specs.Gathering.{past_in};

use crate::stop::Stop;
use past_bits::Operators;
use spec_model::expr::{Expr, Past, Regex};
use spec_model::spec::{Body, Trigger};

/// The past operators so far, and how many lines have a hidden table of their own.
#[derive(Drop)]
pub struct Tables<'a> {
    pub ops: Operators<'a>,
    pub own: usize,
}

// Adds a past operator, unless it is there.
fn add<'a>(ops: &mut Operators<'a>, most: usize, op: Past, operands: &'a [Expr]) -> Result<(), Stop>
    ensures added { OnOk result (map tree_of ops.new ≡ with_operator (map tree_of ops.old) (PastOf op (formulas_in operands.now))) }
    ensures many { IsErrOf result Many → most < length (with_operator (map tree_of ops.old) (PastOf op (formulas_in operands.now))) }
{
    ops.add(op, operands)?;
    if ops.operators().len() > most {
        return Err(Stop::Many);
    }
    Ok(())
}

/// Adds those of an expression, those within others first, up to so many in all.
#[cycle(gathering)]
fn gather<'a>(ops: &mut Operators<'a>, most: usize, e: &'a Expr) -> Result<(), Stop>
    ensures added { OnOk result (map tree_of ops.new ≡ added (map tree_of ops.old) (past_trees (formula e.now))) }
    ensures many { IsErrOf result Many → most < length (added (map tree_of ops.old) (past_trees (formula e.now))) }
{
    match e {
        Expr::Const(_) | Expr::Var(_) | Expr::Table(_, _) => Ok(()),
        Expr::Next(a) => gather(ops, most, a),
        Expr::Not(a) => gather(ops, most, a),
        Expr::Mod(a, _) => gather(ops, most, a),
        Expr::And(es) => gather_each(ops, most, es),
        Expr::Or(es) => gather_each(ops, most, es),
        Expr::Implies(a, b) => gather_two(ops, most, a, b),
        Expr::Iff(a, b) => gather_two(ops, most, a, b),
        Expr::Cmp(_, a, b) => gather_two(ops, most, a, b),
        Expr::Add(a, b) => gather_two(ops, most, a, b),
        Expr::Sub(a, b) => gather_two(ops, most, a, b),
        Expr::Mul(a, b) => gather_two(ops, most, a, b),
        Expr::Past(op, es) => {
            gather_each(ops, most, es)?;
            add(ops, most, *op, es)
        }
    }
}

#[cycle(gathering)]
fn gather_two<'a>(
    ops: &mut Operators<'a>,
    most: usize,
    a: &'a Expr,
    b: &'a Expr,
) -> Result<(), Stop>
    ensures added { OnOk result (map tree_of ops.new ≡ added (added (map tree_of ops.old) (past_trees (formula a.now))) (past_trees (formula b.now))) }
    ensures many { IsErrOf result Many → most < length (added (added (map tree_of ops.old) (past_trees (formula a.now))) (past_trees (formula b.now))) }
{
    gather(ops, most, a)?;
    gather(ops, most, b)
}

/// Adds those of several expressions.
#[cycle(gathering)]
fn gather_each<'a>(ops: &mut Operators<'a>, most: usize, es: &'a [Expr]) -> Result<(), Stop>
    ensures added { OnOk result (map tree_of ops.new ≡ added (map tree_of ops.old) (past_trees_of_all (formulas_in es.now))) }
    ensures many { IsErrOf result Many → most < length (added (map tree_of ops.old) (past_trees_of_all (formulas_in es.now))) }
{
    for e in es {
        gather(ops, most, e)?;
    }
    Ok(())
}

/// Adds those in the brackets of a regular expression. Repeats around one another are a loop.
#[cycle(regexes)]
fn gather_regex<'a>(ops: &mut Operators<'a>, most: usize, r: &'a Regex) -> Result<(), Stop>
    ensures added { OnOk result (map tree_of ops.new ≡ added (map tree_of ops.old) (flat_map past_trees (atoms_of (regular r.now)))) }
    ensures many { IsErrOf result Many → most < length (added (map tree_of ops.old) (flat_map past_trees (atoms_of (regular r.now)))) }
{
    let mut part = r;
    'repeats: loop {
        match part {
            Regex::Atom(e) => return gather(ops, most, e),
            Regex::Cat(rs) => return gather_regexes(ops, most, rs),
            Regex::Alt(rs) => return gather_regexes(ops, most, rs),
            Regex::Repeat(inner, _, _) => part = inner,
        }
    }
}

#[cycle(regexes)]
fn gather_regexes<'a>(ops: &mut Operators<'a>, most: usize, rs: &'a [Regex]) -> Result<(), Stop>
    ensures added { OnOk result (map tree_of ops.new ≡ added (map tree_of ops.old) (flat_map past_trees (atoms_of_all (regulars (map regular rs.now))))) }
    ensures many { IsErrOf result Many → most < length (added (map tree_of ops.old) (flat_map past_trees (atoms_of_all (regulars (map regular rs.now))))) }
{
    for r in rs {
        gather_regex(ops, most, r)?;
    }
    Ok(())
}

// Adds those of a trigger, of its cause before those of its effect.
fn gather_trigger<'a>(
    ops: &mut Operators<'a>,
    most: usize,
    triggers: &'a [Trigger],
    number: usize,
) -> Result<(), Stop>
    ensures added { OnOk result (map tree_of ops.new ≡ added (map tree_of ops.old) (past_in (map trigger_data triggers.now) (TriggerUse number))) }
    ensures many { IsErrOf result Many → most < length (added (map tree_of ops.old) (past_in (map trigger_data triggers.now) (TriggerUse number))) }
{
    if number < triggers.len() {
        let trigger = &triggers[number];
        gather_regex(ops, most, &trigger.cause)?;
        gather_regex(ops, most, &trigger.effect)?;
    }
    Ok(())
}

#[tactic(auto, using(past_bits::proofs::Collected::listed_parts))]
// Adds those of the arguments of a pattern.
fn gather_list<'a>(ops: &mut Operators<'a>, most: usize, es: &'a [Expr]) -> Result<(), Stop>
    ensures added { OnOk result (map tree_of ops.new ≡ added (map tree_of ops.old) (flat_map past_trees (map formula es.now))) }
    ensures many { IsErrOf result Many → most < length (added (map tree_of ops.old) (flat_map past_trees (map formula es.now))) }
{
    gather_each(ops, most, es)
}

#[tactic(auto, using(past_bits::proofs::Collected::listed_parts))]
/// Adds the past operators of a line, up to so many in all.
pub fn gather_body<'a>(
    ops: &mut Operators<'a>,
    most: usize,
    triggers: &'a [Trigger],
    body: &'a Body,
) -> Result<(), Stop>
    ensures added { OnOk result (map tree_of ops.new ≡ added (map tree_of ops.old) (past_in (map trigger_data triggers.now) (content_data body.now))) }
    ensures many { IsErrOf result Many → most < length (added (map tree_of ops.old) (past_in (map trigger_data triggers.now) (content_data body.now))) }
{
    match body {
        Body::Initial(e) => gather(ops, most, e),
        Body::Safety(e) => gather(ops, most, e),
        Body::Recurring(e) => gather(ops, most, e),
        Body::Pattern(_, arguments) => gather_list(ops, most, arguments),
        Body::Trigger(number) => gather_trigger(ops, most, triggers, *number as usize),
    }
}
