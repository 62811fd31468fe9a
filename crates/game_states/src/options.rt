//! The values of domains and of hidden tables, and how many states they make.

ghost use Rattle.std.specs.Prelude.{◌≡◌, ◌+◌, ◌*◌, ◌^◌, ◌<◌, ◌≤◌, ◌≤ℤ◌, ◌+ℤ◌, ◌-ℤ◌, pos, nat_abs, min, map, length, true, nat_lt, IfOk};
ghost use Rattle.std.specs.List.{list_all};
ghost use Rattle.spec_model.specs.Values.{values_of, rising_from, assignments_of};
ghost use Rattle.spec_model.specs.Views.{domain_data, variable_data};
ghost use Rattle.spec_model.specs.GameViews.{hidden_data};
ghost use Rattle.spec_model.specs.Moves.{domains_of};
ghost use Rattle.spec_model.specs.Steps.{below, hidden_values};
ghost use Rattle.spec_model.specs.WellMade.{is_domain};
ghost use Rattle.game_states.specs.Options.{owned_by, numbered_values};

use spec_model::game::Hidden;
use spec_model::value::{Domain, Owner, Value, Var};
use std::alloc::{AllocError, Global};

/// One more than the greatest number of states that rows are kept for.
pub const PAST: usize = 1025;

/// How many whole numbers an interval has.
fn span(lo: i64, hi: i64) -> usize
    requires rising { lo ≤ℤ hi }
    requires low { (pos 0 -ℤ pos (10 ^ 12)) ≤ℤ lo }
    requires high { hi ≤ℤ pos (10 ^ 12) }
    ensures { result ≡ nat_abs (hi -ℤ lo) + 1 }
{
    (hi - lo) as usize + 1
}

fn truths(alloc: Global) -> Result<Vec<Value>, AllocError>
    ensures { IfOk result (λ vs. vs.items ≡ values_of (domain_data Domain.Boolean)) }
{
    let mut values = Vec::new(alloc);
    values.push(Value::Bool(false))?;
    values.push(Value::Bool(true))?;
    Ok(values)
}

fn numbers(alloc: Global, lo: i64, count: usize) -> Result<Vec<Value>, AllocError>
    requires few { (lo +ℤ pos count) ≤ℤ pos (2 ^ 62) }
    ensures { IfOk result (λ vs. vs.items ≡ rising_from lo count) }
{
    let mut values = Vec::new(alloc);
    let mut z = lo;
    for i in 0..count {
        let _ = i;
        values.push(Value::Int(z))?;
        z += 1;
    }
    Ok(values)
}

/// The values of a domain, in order.
fn values_in(alloc: Global, domain: &Domain) -> Result<Vec<Value>, AllocError>
    requires { is_domain (domain_data domain.now) ≡ true }
    ensures { IfOk result (λ vs. vs.items ≡ values_of (domain_data domain.now)) }
{
    match domain {
        Domain::Boolean => truths(alloc),
        Domain::Range { lo, hi } => numbers(alloc, *lo, span(*lo, *hi)),
        Domain::Names(names) => named(alloc, names),
    }
}

fn named(alloc: Global, names: &[u16]) -> Result<Vec<Value>, AllocError>
    ensures { IfOk result (λ vs. vs.items ≡ map (λ n. Value.Name n) names.now) }
{
    names.iter().map(|n| Value::Name(*n)).collect(alloc)
}

fn domain_size(domain: &Domain) -> usize
    requires { is_domain (domain_data domain.now) ≡ true }
    ensures { result ≡ length (values_of (domain_data domain.now)) }
{
    match domain {
        Domain::Boolean => 2,
        Domain::Range { lo, hi } => span(*lo, *hi),
        Domain::Names(names) => names.len(),
    }
}

fn owns(owner: Owner, of: Owner) -> bool
    ensures { result ≡ owned_by owner of }
{
    owner == of
}

/// The values of each variable of an owner.
pub fn options_of(alloc: Global, vars: &[Var], owner: Owner) -> Result<Vec<Vec<Value>>, AllocError>
    requires { list_all (λ v. is_domain v.domain) (map variable_data vars.now) ≡ true }
    ensures { IfOk result (λ all. map (λ c. c.items) all.items ≡ map values_of (domains_of (owned_by owner) (map variable_data vars.now))) }
{
    let mut all = Vec::new(alloc);
    for v in vars {
        if owns(owner, v.owner) {
            all.push(values_in(alloc, &v.domain)?)?;
        }
    }
    Ok(all)
}

/// The numbers below one, rising.
fn numbers_below(alloc: Global, count: u16) -> Result<Vec<u16>, AllocError>
    ensures { IfOk result (λ all. all.items ≡ below count) }
{
    let mut all = Vec::new(alloc);
    for i in 0..count {
        all.push(i)?;
    }
    Ok(all)
}

fn values_below(alloc: Global, count: u16) -> Result<Vec<Value>, AllocError>
    ensures { IfOk result (λ all. all.items ≡ numbered_values count) }
{
    let mut all = Vec::new(alloc);
    for i in 0..count {
        all.push(Value::Int(i64::from(i)))?;
    }
    Ok(all)
}

/// The value numbers of each hidden table.
pub fn hidden_numbers(alloc: Global, hidden: &[Hidden]) -> Result<Vec<Vec<u16>>, AllocError>
    ensures { IfOk result (λ all. map (λ c. c.items) all.items ≡ map (λ h. below h.values) (map hidden_data hidden.now)) }
{
    let mut all = Vec::new(alloc);
    for h in hidden {
        all.push(numbers_below(alloc, h.values)?)?;
    }
    Ok(all)
}

/// The same as values.
pub fn hidden_options(alloc: Global, hidden: &[Hidden]) -> Result<Vec<Vec<Value>>, AllocError>
    ensures { IfOk result (λ all. map (λ c. c.items) all.items ≡ map (λ h. numbered_values h.values) (map hidden_data hidden.now)) }
{
    let mut all = Vec::new(alloc);
    for h in hidden {
        all.push(values_below(alloc, h.values)?)?;
    }
    Ok(all)
}

fn times(total: usize, size: usize) -> usize
    ensures { result ≡ min 1025 (total * size) }
{
    total.saturating_mul(size).min(PAST)
}

/// A number times that of the assignments of an owner's variables, or `PAST` where that is less.
pub fn count_owned(vars: &[Var], owner: Owner, start: usize) -> usize
    requires made { list_all (λ v. is_domain v.domain) (map variable_data vars.now) ≡ true }
    requires small { start ≤ 1025 }
    ensures { result ≡ min 1025 (start * length (assignments_of (domains_of (owned_by owner) (map variable_data vars.now)))) }
{
    let mut total = start;
    for v in vars {
        if owns(owner, v.owner) {
            total = times(total, domain_size(&v.domain));
        }
    }
    total
}

/// A number times that of the values of all hidden tables, or `PAST` where that is less.
pub fn count_hidden(hidden: &[Hidden], start: usize) -> usize
    requires made { list_all (λ h. nat_lt 0 h.values) (map hidden_data hidden.now) ≡ true }
    requires small { start ≤ 1025 }
    ensures { result ≡ min 1025 (start * length (hidden_values (map hidden_data hidden.now))) }
{
    let mut total = start;
    for h in hidden {
        total = times(total, h.values as usize);
    }
    total
}
