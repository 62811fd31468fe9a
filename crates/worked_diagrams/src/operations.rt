//! Worked examples. A table of three levels has the value at the bits b0, b1 and b2 as its bit 4 * b0 + 2 * b1 + b2.

ghost use Rattle.std.specs.Prelude.{◌≡◌, ◌<◌, ◌≤◌};
ghost use Rattle.bdd_store.specs.State.{IsRoot, AddsRoot, SameRoots};

use bdd_ops::{Conjunction, Diagrams, Root};
use bdd_store::StoreFault;
use std::alloc::Global;
use std::process::Abort;
use std::test::Fail;

/// The diagram that is `high` where the level's bit is true, and else `low`.
fn branch(rt: &impl Abort, diagrams: &mut Diagrams, level: u32, low: &Root, high: &Root) -> Root
    requires low_kept { IsRoot diagrams.old.state low.now }
    requires high_kept { IsRoot diagrams.old.state high.now }
    requires below { level < diagrams.old.state.table.levels }
    ensures added { AddsRoot diagrams.old.state diagrams.new.state result }
    ensures levels { diagrams.new.state.table.levels ≡ diagrams.old.state.table.levels }
{
    let bit = diagrams.var(level).expect(rt, "a bit");
    let whole = diagrams.ite(&bit, high, low).expect(rt, "a choice");
    diagrams.release(bit);
    whole
}

/// The diagram of a table from this level on, where the levels before have these bits.
fn of_table(rt: &impl Abort, diagrams: &mut Diagrams, table: u32, level: u32, bits: u32) -> Root
    requires levels { diagrams.old.state.table.levels ≡ 3 }
    requires within { level ≤ 3 }
    ensures added { AddsRoot diagrams.old.state diagrams.new.state result }
    ensures levels { diagrams.new.state.table.levels ≡ 3 }
{
    if level == 3 {
        let value = table >> (bits & 7) & 1 == 1;
        return diagrams.constant(value).expect(rt, "a constant");
    }
    let low = of_table(rt, diagrams, table, level + 1, bits << 1);
    let high = of_table(rt, diagrams, table, level + 1, bits << 1 | 1);
    let whole = branch(rt, diagrams, level, &low, &high);
    diagrams.release(low);
    diagrams.release(high);
    whole
}

#[derive(Clone, Copy)]
enum Operation {
    Keep,
    Not,
    And,
    Or,
    Ite,
    Exists,
    Forall,
    AndExists,
    /// The last level is quantified first, and the others come one level later.
    Shift,
}

fn shifted(rt: &impl Abort, diagrams: &mut Diagrams, a: &Root) -> Root
    requires kept { IsRoot diagrams.old.state a.now }
    requires levels { diagrams.old.state.table.levels ≡ 3 }
    ensures added { AddsRoot diagrams.old.state diagrams.new.state result }
    ensures levels { diagrams.new.state.table.levels ≡ 3 }
{
    let some = diagrams.exists(a, &[2]).expect(rt, "some");
    let moved = diagrams.shift(&some, &[1, 2, 0]).expect(rt, "a shift");
    diagrams.release(some);
    moved
}

/// What the operation makes of three diagrams, of which it may need fewer.
fn made(
    rt: &impl Abort,
    diagrams: &mut Diagrams,
    operation: Operation,
    levels: &[u32],
    a: &Root,
    b: &Root,
    c: &Root,
) -> Root
    requires a_kept { IsRoot diagrams.old.state a.now }
    requires b_kept { IsRoot diagrams.old.state b.now }
    requires c_kept { IsRoot diagrams.old.state c.now }
    requires levels { diagrams.old.state.table.levels ≡ 3 }
    ensures added { AddsRoot diagrams.old.state diagrams.new.state result }
    ensures levels { diagrams.new.state.table.levels ≡ 3 }
{
    match operation {
        Operation::Keep => diagrams.keep(a).expect(rt, "a second root"),
        Operation::Not => diagrams.not(a).expect(rt, "not"),
        Operation::And => diagrams.and(a, b).expect(rt, "and"),
        Operation::Or => diagrams.or(a, b).expect(rt, "or"),
        Operation::Ite => diagrams.ite(a, b, c).expect(rt, "a choice"),
        Operation::Exists => diagrams.exists(a, levels).expect(rt, "some"),
        Operation::Forall => diagrams.forall(a, levels).expect(rt, "all"),
        Operation::AndExists => diagrams.and_exists(a, b, levels).expect(rt, "both"),
        Operation::Shift => shifted(rt, diagrams, a),
    }
}

/// The table of a diagram, which is given back.
fn table_of(diagrams: &mut Diagrams, made: Root) -> u32
    requires kept { IsRoot diagrams.old.state made }
    requires levels { diagrams.old.state.table.levels ≡ 3 }
    ensures released { AddsRoot diagrams.new.state diagrams.old.state made }
    ensures levels { diagrams.new.state.table.levels ≡ 3 }
{
    let mut table = 0;
    for place in 0..8u32 {
        if diagrams.eval(&made, &[place & 4 == 4, place & 2 == 2, place & 1 == 1]) {
            table |= 1 << place;
        }
    }
    diagrams.release(made);
    table
}

#[test]
fn tables_of_operations(rt: HostRuntime) -> Result<(), Fail> {
    // (operation, its levels, its table)
    let cases: [(Operation, &[u32], u32); 15] = [
        (Operation::Keep, &[], 0xe8),
        (Operation::Not, &[], 0x17),
        (Operation::And, &[], 0x80),
        (Operation::Or, &[], 0xfe),
        (Operation::Ite, &[], 0x90),
        (Operation::Exists, &[], 0xe8),
        (Operation::Exists, &[0], 0xee),
        (Operation::Exists, &[2, 0], 0xff),
        (Operation::Forall, &[], 0xe8),
        (Operation::Forall, &[0], 0x88),
        (Operation::Forall, &[2, 0], 0x00),
        (Operation::AndExists, &[], 0x80),
        (Operation::AndExists, &[2], 0xc0),
        (Operation::AndExists, &[0, 2], 0xcc),
        (Operation::Shift, &[], 0xee),
    ];
    let mut diagrams = Diagrams::make(rt.alloc(), 3, 512)?;
    // Two bits or three are true; one or three; the first.
    let a = of_table(&rt, &mut diagrams, 0xe8, 0, 0);
    let b = of_table(&rt, &mut diagrams, 0x96, 0, 0);
    let c = of_table(&rt, &mut diagrams, 0xf0, 0, 0);
    for (operation, levels, table) in cases {
        let made = made(&rt, &mut diagrams, operation, levels, &a, &b, &c);
        assert_eq!(rt;
            table_of(&mut diagrams, made),
            table,
            "over {levels:?}, wanted {table:#x}"
        );
    }
    diagrams.release(a);
    diagrams.release(b);
    diagrams.release(c);
    Ok(())
}

/// The diagram of a level's bit.
fn bit(rt: &impl Abort, diagrams: &mut Diagrams, level: u32) -> Root
    requires below { level < diagrams.old.state.table.levels }
    ensures added { AddsRoot diagrams.old.state diagrams.new.state result }
    ensures levels { diagrams.new.state.table.levels ≡ diagrams.old.state.table.levels }
{
    diagrams.var(level).expect(rt, "a bit")
}

/// The value of a diagram over two levels at each pair of bits, the first level's bit false in the first two.
fn four_values(diagrams: &Diagrams, a: &Root) -> [bool; 4]
    requires kept { IsRoot diagrams.now.state a.now }
    requires levels { diagrams.now.state.table.levels ≡ 2 }
{
    [
        diagrams.eval(a, &[false, false]),
        diagrams.eval(a, &[false, true]),
        diagrams.eval(a, &[true, false]),
        diagrams.eval(a, &[true, true]),
    ]
}

/// The values of a conjunction, or why it was refused. Its root is given back.
fn values_of_both(diagrams: &mut Diagrams, a: &Root, b: &Root) -> Result<[bool; 4], StoreFault>
    requires a_kept { IsRoot diagrams.old.state a.now }
    requires b_kept { IsRoot diagrams.old.state b.now }
    requires levels { diagrams.old.state.table.levels ≡ 2 }
    ensures roots { SameRoots diagrams.old.state diagrams.new.state }
    ensures levels { diagrams.new.state.table.levels ≡ 2 }
{
    let both = diagrams.and(a, b)?;
    let values = four_values(diagrams, &both);
    diagrams.release(both);
    Ok(values)
}

#[test]
fn two_bits_fill_four_nodes(rt: HostRuntime) -> Result<(), Fail> {
    let mut diagrams = Diagrams::make(rt.alloc(), 2, 4)?;
    let a = bit(&rt, &mut diagrams, 0);
    let b = bit(&rt, &mut diagrams, 1);
    let both = values_of_both(&mut diagrams, &a, &b);
    assert_eq!(rt; both, Err(StoreFault::Full));
    assert_eq!(rt; four_values(&diagrams, &a), [false, false, true, true]);
    assert_eq!(rt; four_values(&diagrams, &b), [false, true, false, true]);
    diagrams.release(a);
    diagrams.release(b);
    Ok(())
}

#[test]
fn two_bits_and_their_conjunction_fill_five_nodes(rt: HostRuntime) -> Result<(), Fail> {
    let mut diagrams = Diagrams::make(rt.alloc(), 2, 5)?;
    let a = bit(&rt, &mut diagrams, 0);
    let b = bit(&rt, &mut diagrams, 1);
    let both = values_of_both(&mut diagrams, &a, &b);
    assert_eq!(rt; both, Ok([false, false, false, true]));
    assert_eq!(rt; diagrams.nodes(), 5);
    diagrams.release(a);
    diagrams.release(b);
    Ok(())
}

/// The first bits, where there are any.
fn first_bits(diagrams: &Diagrams, a: &Root, fixed: [Option<bool>; 3]) -> Option<[bool; 3]>
    requires kept { IsRoot diagrams.now.state a.now }
    requires levels { diagrams.now.state.table.levels ≡ 3 }
{
    let mut out = [true; 3];
    diagrams.first_path(a, &fixed, &mut out).then_some(out)
}

#[test]
fn first_bits_where_the_last_two_differ(rt: HostRuntime) -> Result<(), Fail> {
    // (what is fixed, the first bits)
    let cases = [
        ([None, None, None], Some([false, false, true])),
        ([None, None, Some(false)], Some([false, true, false])),
        ([None, Some(true), None], Some([false, true, false])),
        ([Some(true), None, None], Some([true, false, true])),
        ([None, Some(false), Some(false)], None),
    ];
    let mut diagrams = Diagrams::make(rt.alloc(), 3, 64)?;
    let a = of_table(&rt, &mut diagrams, 0x66, 0, 0);
    for (fixed, bits) in cases {
        assert_eq!(rt; first_bits(&diagrams, &a, fixed), bits, "{fixed:?} fixed");
    }
    diagrams.release(a);
    Ok(())
}

/// The first bits that make two roots true, where there are any.
fn common_bits(
    rt: &impl Abort,
    diagrams: &Diagrams,
    alloc: Global,
    a: &Root,
    b: &Root,
    fixed: [Option<bool>; 3],
) -> Option<[bool; 3]>
    requires a_kept { IsRoot diagrams.now.state a.now }
    requires b_kept { IsRoot diagrams.now.state b.now }
    requires levels { diagrams.now.state.table.levels ≡ 3 }
{
    let mut both = Conjunction::make(alloc, 3, 2).expect(rt, "rows");
    diagrams.include(a, &mut both);
    diagrams.include(b, &mut both);
    let mut out = [true; 3];
    diagrams
        .first_common_path(&mut both, &fixed, &mut out)
        .then_some(out)
}

#[test]
fn first_bits_where_the_last_two_differ_and_the_first_is_true(rt: HostRuntime) -> Result<(), Fail> {
    // (what is fixed, the first bits)
    let cases = [
        ([None, None, None], Some([true, false, true])),
        ([None, None, Some(false)], Some([true, true, false])),
        ([Some(true), Some(true), None], Some([true, true, false])),
        ([Some(false), None, None], None),
        ([None, Some(true), Some(true)], None),
    ];
    let mut diagrams = Diagrams::make(rt.alloc(), 3, 64)?;
    let a = of_table(&rt, &mut diagrams, 0x66, 0, 0);
    let b = of_table(&rt, &mut diagrams, 0xf0, 0, 0);
    for (fixed, bits) in cases {
        assert_eq!(rt;
            common_bits(&rt, &diagrams, rt.alloc(), &a, &b, fixed),
            bits,
            "{fixed:?} fixed"
        );
    }
    diagrams.release(a);
    diagrams.release(b);
    Ok(())
}

/// True where the level's bit differs from `x`, which is given back.
fn differs(rt: &impl Abort, diagrams: &mut Diagrams, x: Root, level: u32) -> Root
    requires kept { IsRoot diagrams.old.state x }
    requires below { level < diagrams.old.state.table.levels }
    ensures kept { IsRoot diagrams.new.state result }
    ensures levels { diagrams.new.state.table.levels ≡ diagrams.old.state.table.levels }
{
    let other = diagrams.not(&x).expect(rt, "a negation");
    let differs = branch(rt, diagrams, level, &x, &other);
    diagrams.release(other);
    diagrams.release(x);
    differs
}

#[test]
fn a_parity_of_64_bits_has_127_nodes(rt: HostRuntime) -> Result<(), Fail> {
    let mut diagrams = Diagrams::make(rt.alloc(), 64, 4096)?;
    let mut x = diagrams.constant(false).expect(&rt, "a constant");
    for k in 0..64u32 {
        x = differs(&rt, &mut diagrams, x, 63 - k);
    }
    diagrams.reclaim();
    assert_eq!(rt; diagrams.nodes(), 129);
    let mut bits = [false; 64];
    bits[17] = true;
    assert_eq!(rt; diagrams.eval(&x, &bits), true);
    bits[63] = true;
    assert_eq!(rt; diagrams.eval(&x, &bits), false);
    diagrams.release(x);
    Ok(())
}
