//! What an expression gives: its kind, and the span of a whole-number expression.

ghost use Rattle.std.specs.Prelude.{◌≡◌, ◌<◌, ◌==◌, not, pos, int_lt};
ghost use Rattle.std.specs.List.{list_any};
ghost use Rattle.spec_model.specs.Typing.{same_names as same_names_lem};
ghost use Rattle.spectra_judge.specs.Kinds.{Whole, is_truth as is_truth_lem, is_whole as is_whole_lem, can_equal as can_equal_lem, is_far as is_far_lem, is_wide as is_wide_lem, is_outside as is_outside_lem, added, subtracted, least_of, greatest_of, multiplied, reduced as reduced_lem};
ghost use Rattle.spectra_judge.specs.KindViews.{kind_data};

/// Truth values; whole numbers from a least to a greatest one; whole numbers whose span isn't known; names of a list; one
/// name, which fits every list that it stands in; and what fits everything, as an unknown name does.
#[derive(Clone, Copy)]
pub enum Kind<'a> {
    Truth,
    Whole(i64, i64),
    SomeWhole,
    NameOf(&'a [usize]),
    OneName(usize),
    Anything,
}

// No end of a span may be farther from 0.
const FARTHEST: i64 = 1_000_000_000_000;

/// Whether an expression of a kind fits where a truth value is wanted.
pub fn is_truth(kind: Kind<'_>) -> bool
    ensures { result ≡ is_truth_lem (kind_data kind.entry) }
{
    match kind {
        Kind::Truth | Kind::Anything => true,
        Kind::Whole(_, _) | Kind::SomeWhole | Kind::NameOf(_) | Kind::OneName(_) => false,
    }
}

/// Whether an expression of a kind fits where a whole number is wanted.
pub fn is_whole(kind: Kind<'_>) -> bool
    ensures { result ≡ is_whole_lem (kind_data kind.entry) }
{
    match kind {
        Kind::Whole(_, _) | Kind::SomeWhole | Kind::Anything => true,
        Kind::Truth | Kind::NameOf(_) | Kind::OneName(_) => false,
    }
}

#[tactic(auto, using(crate::proofs::SameNames::same_length))]
// Whether two lists have the same names in the same order.
fn same_names(names: &[usize], others: &[usize]) -> bool
    ensures { result ≡ same_names_lem names.now others.now }
{
    if names.len() != others.len() {
        return false;
    }
    for i in 0..names.len() {
        if names[i] != others[i] {
            return false;
        }
    }
    true
}

// Whether a name is one of a list.
fn is_among(name: usize, names: &[usize]) -> bool
    ensures { result ≡ list_any (λ other. other == name) names.now }
{
    for other in names {
        if *other == name {
            return true;
        }
    }
    false
}

/// Whether `=` compares expressions of two kinds, and whether a parameter of the one takes an argument of the other.
pub fn can_equal(kind: Kind<'_>, other: Kind<'_>) -> bool
    ensures { result ≡ can_equal_lem (kind_data kind.entry) (kind_data other.entry) }
{
    match (kind, other) {
        (Kind::Anything, _) | (_, Kind::Anything) => true,
        (Kind::Truth, Kind::Truth) => true,
        (Kind::Whole(_, _) | Kind::SomeWhole, _) => is_whole(other),
        (Kind::NameOf(names), Kind::NameOf(others)) => same_names(names, others),
        (Kind::NameOf(names), Kind::OneName(name)) => is_among(name, names),
        (Kind::OneName(name), Kind::NameOf(names)) => is_among(name, names),
        (_, _) => false,
    }
}

// Whether an end of a span is farther from 0 than it may be.
fn is_far(end: i64) -> bool
    ensures { result ≡ is_far_lem end }
{
    end < -FARTHEST || FARTHEST < end
}

/// Whether a span has a far end, or more than 4,096 numbers.
pub fn is_wide(kind: Kind<'_>) -> bool
    ensures { result ≡ is_wide_lem (kind_data kind.entry) }
{
    match kind {
        Kind::Whole(low, high) => is_far(low) || is_far(high) || high - low >= 4096,
        Kind::Truth | Kind::SomeWhole | Kind::NameOf(_) | Kind::OneName(_) | Kind::Anything =>
            false,
    }
}

// Whether a number is past those of so many elements.
fn is_past_end(end: i64, count: usize) -> bool
    ensures { result ≡ (not (int_lt end (pos count))) }
{
    end >= 0 && end.unsigned_abs() as usize >= count
}

/// Whether a span isn't within the numbers of so many elements. Of a span that isn't known, and of an array whose length isn't,
/// nothing is said.
pub fn is_outside(count: usize, kind: Kind<'_>) -> bool
    ensures { result ≡ is_outside_lem count (kind_data kind.entry) }
{
    match kind {
        Kind::Whole(low, high) => { count > 0 && (low < 0 || is_past_end(high, count)) }
        Kind::Truth | Kind::SomeWhole | Kind::NameOf(_) | Kind::OneName(_) | Kind::Anything =>
            false,
    }
}

/// The span of a sum.
pub fn sum_of<'a>(a: Kind<'a>, b: Kind<'a>) -> Kind<'a>
    ensures { kind_data result ≡ added (kind_data a.entry) (kind_data b.entry) }
{
    match (a, b) {
        (Kind::Whole(p, q), Kind::Whole(r, s)) => {
            Kind::Whole(p.saturating_add(r), q.saturating_add(s))
        }
        (_, _) => Kind::SomeWhole,
    }
}

/// The span of a difference.
pub fn difference_of<'a>(a: Kind<'a>, b: Kind<'a>) -> Kind<'a>
    ensures { kind_data result ≡ subtracted (kind_data a.entry) (kind_data b.entry) }
{
    match (a, b) {
        (Kind::Whole(p, q), Kind::Whole(r, s)) => {
            Kind::Whole(p.saturating_sub(s), q.saturating_sub(r))
        }
        (_, _) => Kind::SomeWhole,
    }
}

// The least of four numbers.
fn least(p: i64, q: i64, r: i64, s: i64) -> i64
    ensures { result ≡ least_of p q r s }
{
    p.min(q).min(r.min(s))
}

// The greatest of four numbers.
fn greatest(p: i64, q: i64, r: i64, s: i64) -> i64
    ensures { result ≡ greatest_of p q r s }
{
    p.max(q).max(r.max(s))
}

// The least interval with the products of the ends of two others.
fn span_of_products<'a>(p: i64, q: i64, r: i64, s: i64) -> Kind<'a>
    ensures { kind_data result ≡ multiplied (Whole p q) (Whole r s) }
{
    let pr = p.saturating_mul(r);
    let ps = p.saturating_mul(s);
    let qr = q.saturating_mul(r);
    let qs = q.saturating_mul(s);
    Kind::Whole(least(pr, ps, qr, qs), greatest(pr, ps, qr, qs))
}

/// The span of a product.
pub fn product_of<'a>(a: Kind<'a>, b: Kind<'a>) -> Kind<'a>
    ensures { kind_data result ≡ multiplied (kind_data a.entry) (kind_data b.entry) }
{
    match (a, b) {
        (Kind::Whole(p, q), Kind::Whole(r, s)) => span_of_products(p, q, r, s),
        (_, _) => Kind::SomeWhole,
    }
}

/// The span of a remainder by `n`, from 0 to `n` - 1.
pub fn reduced<'a>(n: i64) -> Kind<'a>
    ensures { kind_data result ≡ reduced_lem n }
{
    if 0 < n {
        Kind::Whole(0, n - 1)
    } else {
        Kind::SomeWhole
    }
}
