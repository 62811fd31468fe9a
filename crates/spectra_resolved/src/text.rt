//! What several files declare and say, with each name resolved.

use crate::spot::{Mention, Spot};
use crate::tree::{Regex, Resolved};
use spec_model::spec::Role;
use spec_model::value::Owner;

/// A type. `Range` has the place of the word `Int` and the two bounds, `Names` the numbers of the enum's names, which
/// differ. A type without meaning, whose fault stands elsewhere, is `Hole`: an unknown name, or an enum with a name twice or
/// with a name that was first declared as something else.
#[derive(Drop)]
pub enum TypeUse {
    Boolean,
    Range(Spot, Box<Resolved>, Box<Resolved>),
    Names(Vec<usize>),
    /// The number of the declared type.
    Named(usize),
    Hole,
}

/// A variable or monitor, or an array, whose elements are so many variables of one type: from 1 to 256, or 1 where the length is
/// faulty. What is no array is one variable. A monitor belongs to the system.
#[derive(Drop)]
pub struct Variable<'t> {
    pub name: Mention<'t>,
    pub owner: Owner,
    pub domain: TypeUse,
    pub array: bool,
    pub count: usize,
}

/// A name for a type.
#[derive(Drop)]
pub struct Alias<'t> {
    pub name: Mention<'t>,
    pub body: TypeUse,
}

/// Which word declares a definition.
#[derive(Clone, Copy, PartialEq, Eq)]
pub enum DefinitionWord {
    Define,
    Predicate,
}

/// A define or a predicate. A define has no parameters. `doubled` says that a name stands twice among the parameters, by
/// which the definition is faulty.
#[derive(Drop)]
pub struct Definition<'t> {
    pub name: Mention<'t>,
    pub word: DefinitionWord,
    pub params: Vec<TypeUse>,
    pub doubled: bool,
    pub body: Resolved,
}

/// A line of a pattern, with the place of its first token.
#[derive(Drop)]
pub enum PatternLine {
    Initial(Spot, Resolved),
    Safety(Spot, Resolved),
    Recurring(Spot, Resolved),
}

/// A pattern. In its lines `Leaf::Parameter` and `Leaf::Own` are the places of its parameters and of its own variables.
/// `doubled` says that a name stands twice among these.
#[derive(Drop)]
pub struct Pattern<'t> {
    pub name: Mention<'t>,
    pub params: usize,
    pub doubled: bool,
    pub own: Vec<TypeUse>,
    pub lines: Vec<PatternLine>,
}

/// What the name of a pattern in a line stands for, with its number among the patterns.
#[derive(Clone, Copy, PartialEq, Eq)]
pub enum PatternUse {
    Pattern(usize),
    Unknown,
    /// A pattern with a wrong number of arguments.
    Arity(usize),
}

/// What a line says. The place in `Trigger` is that of the word `trig`, that in `Pattern` the pattern's name.
#[derive(Drop)]
pub enum Body {
    Initial(Resolved),
    Safety(Resolved),
    Recurring(Resolved),
    Trigger(Spot, Regex, Regex),
    Pattern(Spot, PatternUse, Vec<Resolved>),
}

/// An assumption, a guarantee or a line of a monitor. `at` is the place of its first token, and `item` that of the item that it
/// is or stands in. The lines are numbered from 1.
#[derive(Drop)]
pub struct Line<'t> {
    pub at: Spot,
    pub item: Spot,
    pub role: Role,
    pub name: Option<&'t str>,
    pub body: Body,
}

/// All that several files declare and say: the enum names by their first mention, and the others in text order, file by
/// file.
#[derive(Drop)]
pub struct Text<'t> {
    pub names: Vec<&'t str>,
    pub variables: Vec<Variable<'t>>,
    pub types: Vec<Alias<'t>>,
    pub definitions: Vec<Definition<'t>>,
    pub patterns: Vec<Pattern<'t>>,
    pub lines: Vec<Line<'t>>,
}
