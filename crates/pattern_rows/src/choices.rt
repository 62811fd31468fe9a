//! The values of domains, and all assignments and letters in order.

ghost use Rattle.std.specs.Prelude.{◌≡◌, ◌+◌, ◌*◌, ◌^◌, ◌≤◌, ◌≤ℤ◌, ◌+ℤ◌, ◌-ℤ◌, ◌++◌, ◌∷◌, [], pos, nat_abs, min, map, flat_map, true, false, IfOk, OnOk};
ghost use Rattle.std.specs.List.{list_all};
ghost use Rattle.spec_model.specs.Values.{values_of, rising_from, assignments_of};
ghost use Rattle.spec_model.specs.Views.{domain_data};
ghost use Rattle.spec_model.specs.Sizes.{domain_size as domain_size_lem, product};
ghost use Rattle.spec_model.specs.WellMade.{is_domain};
ghost use Rattle.pattern_rows.specs.Rows.{letters};

use spec_model::value::{Domain, Value};
use std::alloc::{AllocError, Global};

/// How many whole numbers an interval has.
fn span(lo: i64, hi: i64) -> usize
    requires rising { lo ≤ℤ hi }
    requires low { (pos 0 -ℤ pos (10 ^ 12)) ≤ℤ lo }
    requires high { hi ≤ℤ pos (10 ^ 12) }
    ensures { result ≡ nat_abs (hi -ℤ lo) + 1 }
{
    (hi - lo) as usize + 1
}

fn truths(alloc: Global) -> Result<Vec<Value>, AllocError>
    ensures { IfOk result (λ vs. vs.items ≡ values_of (domain_data Domain.Boolean)) }
{
    let mut values = Vec::new(alloc);
    values.push(Value::Bool(false))?;
    values.push(Value::Bool(true))?;
    Ok(values)
}

fn numbers(alloc: Global, lo: i64, count: usize) -> Result<Vec<Value>, AllocError>
    requires few { (lo +ℤ pos count) ≤ℤ pos (2 ^ 62) }
    ensures { IfOk result (λ vs. vs.items ≡ rising_from lo count) }
{
    let mut values = Vec::new(alloc);
    let mut z = lo;
    for i in 0..count {
        let _ = i;
        values.push(Value::Int(z))?;
        z += 1;
    }
    Ok(values)
}

fn named(alloc: Global, names: &[u16]) -> Result<Vec<Value>, AllocError>
    ensures { IfOk result (λ vs. vs.items ≡ map (λ n. Value.Name n) names.now) }
{
    names.iter().map(|n| Value::Name(*n)).collect(alloc)
}

/// The values of a domain, in order.
fn values_in(alloc: Global, domain: &Domain) -> Result<Vec<Value>, AllocError>
    requires { is_domain (domain_data domain.now) ≡ true }
    ensures { IfOk result (λ vs. vs.items ≡ values_of (domain_data domain.now)) }
{
    match domain {
        Domain::Boolean => truths(alloc),
        Domain::Range { lo, hi } => numbers(alloc, *lo, span(*lo, *hi)),
        Domain::Names(names) => named(alloc, names),
    }
}

fn domain_size(domain: &Domain) -> usize
    requires { is_domain (domain_data domain.now) ≡ true }
    ensures { result ≡ domain_size_lem (domain_data domain.now) }
{
    match domain {
        Domain::Boolean => 2,
        Domain::Range { lo, hi } => span(*lo, *hi),
        Domain::Names(names) => names.len(),
    }
}

/// One more than the greatest number of values that a pattern may have.
pub const PAST: usize = 65;

fn times(total: usize, size: usize) -> usize
    ensures { result ≡ min 65 (total * size) }
{
    total.saturating_mul(size).min(PAST)
}

/// The number of assignments of variables with these domains, or `PAST` where that is less.
pub fn count_assignments(domains: &[Domain]) -> usize
    requires { list_all is_domain (map domain_data domains.now) ≡ true }
    ensures { result ≡ min 65 (product (map domain_size_lem (map domain_data domains.now))) }
{
    let mut total = 1;
    for domain in domains {
        total = times(total, domain_size(domain));
    }
    total
}

fn prepended(alloc: Global, head: Value, tail: &[Value]) -> Result<Vec<Value>, AllocError>
    ensures { IfOk result (λ list. list.items ≡ head ∷ tail.now) }
{
    let mut list = Vec::new(alloc);
    list.push(head)?;
    for x in tail {
        list.push(*x)?;
    }
    Ok(list)
}

fn add_behind(
    alloc: Global,
    out: &mut Vec<Vec<Value>>,
    head: Value,
    tails: &[Vec<Value>],
) -> Result<(), AllocError>
    ensures { OnOk result (map (λ c. c.items) out.new.items ≡ map (λ c. c.items) out.old.items ++ map (λ t. head ∷ t) (map (λ c. c.items) tails.now)) }
{
    for tail in tails {
        out.push(prepended(alloc, head, tail)?)?;
    }
    Ok(())
}

fn behind_each(
    alloc: Global,
    heads: &[Value],
    tails: &[Vec<Value>],
) -> Result<Vec<Vec<Value>>, AllocError>
    ensures { IfOk result (λ all. map (λ c. c.items) all.items ≡ flat_map (λ head. map (λ t. head ∷ t) (map (λ c. c.items) tails.now)) heads.now) }
{
    let mut all = Vec::new(alloc);
    for head in heads {
        add_behind(alloc, &mut all, *head, tails)?;
    }
    Ok(all)
}

/// The list of the empty list alone.
fn nothing(alloc: Global) -> Result<Vec<Vec<Value>>, AllocError>
    ensures { IfOk result (λ all. map (λ c. c.items) all.items ≡ [] ∷ []) }
{
    let mut all = Vec::new(alloc);
    all.push(Vec::new(alloc))?;
    Ok(all)
}

/// All assignments of variables with these domains, the last variable changing fastest.
pub fn assignments(alloc: Global, domains: &[Domain]) -> Result<Vec<Vec<Value>>, AllocError>
    requires { list_all is_domain (map domain_data domains.now) ≡ true }
    ensures { IfOk result (λ all. map (λ c. c.items) all.items ≡ assignments_of (map domain_data domains.now)) }
{
    let mut tails = nothing(alloc)?;
    let mut i = domains.len();
    while i > 0 {
        i -= 1;
        let heads = values_in(alloc, &domains[i])?;
        tails = behind_each(alloc, &heads, &tails)?;
    }
    Ok(tails)
}

fn with_both(alloc: Global, tails: &[Vec<Value>]) -> Result<Vec<Vec<Value>>, AllocError>
    ensures { IfOk result (λ all. map (λ c. c.items) all.items ≡ flat_map (λ l. (Value.Bool false ∷ l) ∷ (Value.Bool true ∷ l) ∷ []) (map (λ c. c.items) tails.now)) }
{
    let mut all = Vec::new(alloc);
    for tail in tails {
        all.push(prepended(alloc, Value::Bool(false), tail)?)?;
        all.push(prepended(alloc, Value::Bool(true), tail)?)?;
    }
    Ok(all)
}

/// All values of so many parameters, in the order of the letters: the first parameter changes fastest.
pub fn all_letters(alloc: Global, params: u32) -> Result<Vec<Vec<Value>>, AllocError>
    ensures { IfOk result (λ all. map (λ c. c.items) all.items ≡ letters params) }
{
    let mut all = nothing(alloc)?;
    for i in 0..params {
        let _ = i;
        all = with_both(alloc, &all)?;
    }
    Ok(all)
}
