//! The values of domains: how many there are, and the place of each.

ghost use Rattle.std.specs.Prelude.{◌≡◌, ◌==◌, ◌+◌, ◌<◌, ◌≤ℤ◌, ◌-ℤ◌, ◌^◌, pos, nat_abs, true, map, ◌+ℤ◌, IfOk};
ghost use Rattle.std.specs.List.{list_any, position_or_len};
ghost use Rattle.spec_model.specs.Views.{domain_data};
ghost use Rattle.spec_model.specs.GameViews.{hidden_data};
ghost use Rattle.spec_model.specs.Values.{same_value, values_of, rank_of, rising_from};
ghost use Rattle.spec_model.specs.Sizes.{domain_size};
ghost use Rattle.spec_model.specs.WellMade.{all_differ};
ghost use Rattle.bit_compile.specs.Domains.{table_domain};
ghost use Rattle.bit_compile.specs.Laid.{IsCountable};

use crate::OutOfMemory;
use spec_model::game::Hidden;
use spec_model::value::{Domain, Value};
use std::alloc::Global;

/// How many whole numbers an interval has.
fn span(lo: i64, hi: i64) -> usize
    requires rising { lo ≤ℤ hi }
    requires low { (pos 0 -ℤ pos (10 ^ 12)) ≤ℤ lo }
    requires high { hi ≤ℤ pos (10 ^ 12) }
    ensures { result ≡ nat_abs (hi -ℤ lo) + 1 }
{
    (hi - lo) as usize + 1
}

/// How many values a domain has.
pub fn size(domain: &Domain) -> usize
    requires { IsCountable (domain_data domain.now) }
    ensures { result ≡ domain_size (domain_data domain.now) }
{
    match domain {
        Domain::Boolean => 2,
        Domain::Range { lo, hi } => span(*lo, *hi),
        Domain::Names(names) => names.len(),
    }
}

/// The place of a name among different ones, found at once where it is the one to look at first.
fn place(names: &[u16], n: u16, near: usize) -> usize
    requires { all_differ (λ a b. a == b) names.now ≡ true }
    ensures { result ≡ position_or_len (λ m. n == m) names.now }
{
    if near < names.len() && names[near] == n {
        return near;
    }
    for (i, m) in names.iter().enumerate() {
        if *m == n {
            return i;
        }
    }
    names.len()
}

/// How far a whole number is from the least one of its interval.
fn offset(lo: i64, hi: i64, z: i64) -> usize
    requires low { (pos 0 -ℤ pos (10 ^ 12)) ≤ℤ lo }
    requires high { hi ≤ℤ pos (10 ^ 12) }
    requires within { (lo ≤ℤ z) × (z ≤ℤ hi) }
    ensures { result ≡ nat_abs (z -ℤ lo) }
{
    (z - lo) as usize
}

/// The code of a value: its place in its domain. A name is looked for at the place `near` first.
pub fn code(domain: &Domain, value: Value, near: usize) -> usize
    requires countable { IsCountable (domain_data domain.now) }
    requires among { list_any (same_value value) (values_of (domain_data domain.now)) ≡ true }
    ensures { result ≡ rank_of (domain_data domain.now) value }
{
    match domain {
        Domain::Boolean => match value {
            Value::Bool(b) => usize::from(b),
            Value::Int(_) | Value::Name(_) => unreachable!(),
        },
        Domain::Range { lo, hi } => match value {
            Value::Int(z) => offset(*lo, *hi, z),
            Value::Bool(_) | Value::Name(_) => unreachable!(),
        },
        Domain::Names(names) => match value {
            Value::Name(n) => place(names, n, near),
            Value::Bool(_) | Value::Int(_) => unreachable!(),
        },
    }
}

/// A domain with the same values.
pub fn copy(alloc: Global, domain: &Domain) -> Result<Domain, OutOfMemory>
    ensures { IfOk result (λ copy. domain_data copy ≡ domain_data domain.now) }
{
    match domain {
        Domain::Boolean => Ok(Domain::Boolean),
        Domain::Range { lo, hi } => Ok(Domain::Range { lo: *lo, hi: *hi }),
        Domain::Names(names) => Ok(Domain::Names(Vec::from_slice(alloc, names)?)),
    }
}

/// The domain of a hidden table's values.
pub fn domain_of(h: &Hidden) -> Domain
    requires { 0 < h.now.values }
    ensures domain { domain_data result ≡ table_domain (hidden_data h.now) }
    ensures countable { IsCountable (domain_data result) }
{
    Domain::Range {
        lo: 0,
        hi: i64::from(h.values) - 1,
    }
}

fn truths(alloc: Global) -> Result<Vec<Value>, OutOfMemory>
    ensures { IfOk result (λ vs. vs.items ≡ values_of (domain_data Domain.Boolean)) }
{
    let mut values = Vec::new(alloc);
    values.push(Value::Bool(false))?;
    values.push(Value::Bool(true))?;
    Ok(values)
}

fn numbers(alloc: Global, lo: i64, count: usize) -> Result<Vec<Value>, OutOfMemory>
    requires few { (lo +ℤ pos count) ≤ℤ pos (2 ^ 62) }
    ensures { IfOk result (λ vs. vs.items ≡ rising_from lo count) }
{
    let mut values = Vec::new(alloc);
    let mut z = lo;
    for i in 0..count {
        let _ = i;
        values.push(Value::Int(z))?;
        z += 1;
    }
    Ok(values)
}

fn named(alloc: Global, names: &[u16]) -> Result<Vec<Value>, OutOfMemory>
    ensures { IfOk result (λ vs. vs.items ≡ map (λ n. Value.Name n) names.now) }
{
    names.iter().map(|n| Value::Name(*n)).collect(alloc)
}

/// The values of a domain, in order.
pub fn values(alloc: Global, domain: &Domain) -> Result<Vec<Value>, OutOfMemory>
    requires { IsCountable (domain_data domain.now) }
    ensures { IfOk result (λ vs. vs.items ≡ values_of (domain_data domain.now)) }
{
    match domain {
        Domain::Boolean => truths(alloc),
        Domain::Range { lo, hi } => numbers(alloc, *lo, span(*lo, *hi)),
        Domain::Names(names) => named(alloc, names),
    }
}
