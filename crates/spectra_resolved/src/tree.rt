//! Trees in which each name is what it stands for.
//!
//! A definition is named by its number among all defines and predicates, a variable by its number among variables and
//! monitors, an enum name by its number among all enum names, a parameter and an own variable by its place among those of
//! the definition or pattern around it. Every tree keeps its two places: that of its first token, opening parentheses
//! included, and its own, which is that of its operator (of `And` and `Or` the first one), or of the name, word or number
//! that it is; of the latter the tree says whether a body brings it. The form of a tree is shared by what is written and by what is put
//! in: a tree as it is written has no `Hole`, and a tree in which everything is put in has no define, predicate, parameter or
//! misuse. The variable of a quantifier is named by the place of its name in the text, which no other quantifier has.

use crate::spot::{Mark, Spot};
use spectra_trees::tree::{BinaryWord, PrefixWord};

/// What takes the place of something that has no meaning: it fits every type, or every Boolean.
#[derive(Clone, Copy, PartialEq, Eq)]
pub enum Hole {
    Anything,
    Truth,
}

/// A tree without parts. A number is at most 10^12 + 1 and at least the negative of that, which stand for all beyond.
#[derive(Clone, Copy, PartialEq, Eq)]
pub enum Leaf {
    Truth(bool),
    Number(i64),
    EnumName(usize),
    Variable(usize),
    /// A parameter of the predicate or pattern around it.
    Parameter(usize),
    /// An own variable of the pattern around it.
    Own(usize),
    /// The use of a define, by its number among the definitions.
    Define(usize),
    /// The variable of a quantifier around it, by the place of its name.
    Bound(Spot),
    Hole(Hole),
}

/// A name that means nothing where it stands, which is a fault at the name. Its arguments are judged all the same.
#[derive(Clone, Copy, PartialEq, Eq)]
pub enum Misuse {
    /// No declaration is visible: it fits every type.
    Unknown,
    /// A predicate without parentheses, by its number: it fits every type.
    Bare(usize),
    /// Parentheses behind a name of something else: it fits every type, and reads or uses what the name stands for.
    Called(Leaf),
    /// A predicate with a wrong number of arguments: it fits every Boolean.
    Arity(usize),
}

/// Whether all of a quantifier's copies are to hold, or one of them.
#[derive(Clone, Copy, PartialEq, Eq)]
pub enum QuantifierWord {
    ForAll,
    Exists,
}

/// What is known of a quantifier's range. `Open`: its bounds have no numbers. `Wrong`: they have, and there is no number
/// from the one to the other, or too many. `Right`: it is written out.
#[derive(Clone, Copy, PartialEq, Eq)]
pub enum Extent {
    Open,
    Wrong,
    Right,
}

/// What a tree is made of, where it isn't an operator between two operands. The place in `Mod` is that of its number.
/// `And` and `Or` have all their operands and the places of the operators between them.
#[cycle(resolved)]
#[derive(Drop)]
pub enum Shape {
    Leaf(Leaf),
    /// The use of a predicate, by its number among the definitions, with as many arguments as it has parameters.
    Predicate(usize, Vec<Resolved>),
    /// A misused name, with the arguments behind it.
    Misuse(Misuse, Vec<Resolved>),
    Next(Box<Resolved>),
    Prefix(PrefixWord, Box<Resolved>),
    Mod(Box<Resolved>, Spot, i64),
    And(Vec<Resolved>, Vec<Spot>),
    Or(Vec<Resolved>, Vec<Spot>),
    /// An element of an array: the number of the first one, how many there are, and what says which. Of an array whose length
    /// is faulty there are none.
    Index(usize, usize, Box<Resolved>),
    /// A quantifier: its variable, what is known of its range, its two bounds, and its copies in the order of their numbers,
    /// or its body alone where the range isn't `Right`.
    Quantified(QuantifierWord, Spot, Extent, Box<Resolved>, Box<Resolved>, Vec<Resolved>),
}

/// An operator with its second operand. Its first operand is all that stands before it in the chain; `first` is the place
/// of the first token of both, `at` that of the operator.
#[cycle(resolved)]
#[derive(Drop)]
pub struct Link {
    pub first: Spot,
    pub at: Mark,
    pub word: BinaryWord,
    pub second: Resolved,
}

/// A tree. A chain is a tree with operators behind it, each of which has all before it as its first operand: a list, since a
/// sum nests to the left as deep as its text is long. The places of a node are `first` and `at`.
#[cycle(resolved)]
pub enum Resolved {
    Chain(Box<Resolved>, Vec<Link>),
    Node(Spot, Mark, Shape),
}

impl Drop for Resolved {
    /// A loop over first operands, since definitions nest them in one another. Only operands in lists are a recursion.
    #[cycle(resolved)]
    fn drop(mut self) {
        loop {
            match self {
                Resolved::Chain(head, _links) => self = Box::into_inner(head),
                Resolved::Node(_, _, shape) => match shape {
                    Shape::Leaf(_) => return,
                    Shape::Predicate(_, _arguments) => return,
                    Shape::Misuse(_, _arguments) => return,
                    Shape::Next(first) => self = Box::into_inner(first),
                    Shape::Prefix(_, first) => self = Box::into_inner(first),
                    Shape::Mod(first, _, _) => self = Box::into_inner(first),
                    Shape::And(_operands, _operators) => return,
                    Shape::Or(_operands, _operators) => return,
                    Shape::Index(_, _, index) => self = Box::into_inner(index),
                    Shape::Quantified(_, _, _, _low, _high, _copies) => return,
                },
            }
        }
    }
}

/// How often a part is repeated: from the first number on, up to the second where there is one. A number is at most
/// 10^12 + 1, which stands for all beyond.
#[derive(Clone, Copy, PartialEq, Eq)]
pub struct Times {
    pub least: i64,
    pub most: Option<i64>,
}

/// A regular expression over positions. `Repeat` has the repeats behind a part, the innermost first.
#[derive(Drop)]
pub enum Regex {
    Atom(Box<Resolved>),
    Cat(Vec<Regex>),
    Alt(Vec<Regex>),
    Repeat(Box<Regex>, Vec<Times>),
}
