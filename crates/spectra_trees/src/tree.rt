//! The trees of the grammar.
//!
//! The `at` of an item, a part or a type is the place of its first token. A name keeps its text and its place.

use spec_model::spec::Role;

/// The place of a character, its line and column from 1.
#[derive(Clone, Copy, PartialEq, Eq)]
pub struct Place {
    pub line: u32,
    pub column: u32,
}

/// A name as it is written, and where. An import's name is its quoted text, at the place of the word `import`.
#[derive(Drop)]
pub struct Name {
    pub text: String,
    pub line: u32,
    pub column: u32,
}

/// A whole text: the name behind `spec` or `module`, the imports and the items in text order.
#[derive(Drop)]
pub struct Tree {
    pub header: Name,
    pub imports: Vec<Name>,
    pub items: Vec<Item>,
}

/// One production of `item`.
#[derive(Drop)]
pub enum Item {
    Variable(VarItem),
    Alias(TypeItem),
    Define(DefineItem),
    Predicate(PredicateItem),
    Pattern(PatternItem),
    Monitor(MonitorItem),
    Statement(LineItem),
}

/// The first word of a declaration of a variable.
#[derive(Clone, Copy, PartialEq, Eq)]
pub enum OwnerWord {
    Env,
    Sys,
    Aux,
}

/// The declaration of a variable.
#[derive(Drop)]
pub struct VarItem {
    pub at: Place,
    pub owner: OwnerWord,
    pub domain: TypeTree,
    pub length: Option<Length>,
    pub name: Name,
}

/// How many elements an array has: the place of the `[`, and the digits as written.
#[derive(Drop)]
pub struct Length {
    pub bracket: Place,
    pub digits: String,
}

/// A name for a type.
#[derive(Drop)]
pub struct TypeItem {
    pub at: Place,
    pub name: Name,
    pub body: TypeTree,
}

/// The names behind one `define`, with what they stand for.
#[derive(Drop)]
pub struct DefineItem {
    pub at: Place,
    pub bodies: Vec<(Name, ExprTree)>,
}

/// A predicate with its parameters.
#[derive(Drop)]
pub struct PredicateItem {
    pub at: Place,
    pub name: Name,
    pub params: Vec<(TypeTree, Name)>,
    pub body: ExprTree,
}

/// A pattern with its parameters, own variables and lines.
#[derive(Drop)]
pub struct PatternItem {
    pub at: Place,
    pub name: Name,
    pub params: Vec<Name>,
    pub parts: Vec<Part>,
}

/// A monitor: a variable with lines of its own.
#[derive(Drop)]
pub struct MonitorItem {
    pub at: Place,
    pub domain: TypeTree,
    pub name: Name,
    pub parts: Vec<Part>,
}

/// One line between the braces of a pattern or a monitor.
#[derive(Drop)]
pub struct Part {
    pub at: Place,
    pub form: PartForm,
}

/// An own variable, or a line by its word.
#[derive(Drop)]
pub enum PartForm {
    Own(TypeTree, Name),
    Initial(ExprTree),
    Always(ExprTree),
    Recurring(ExprTree),
}

/// An assumption or a guarantee, with its name where it has one.
#[derive(Drop)]
pub struct LineItem {
    pub at: Place,
    pub role: Role,
    pub name: Option<Name>,
    pub body: BodyTree,
}

/// What a line says. The place in `Trigger` is that of the word `trig`.
#[derive(Drop)]
pub enum BodyTree {
    Initial(ExprTree),
    Always(ExprTree),
    Recurring(ExprTree),
    Trigger(Place, RegexTree, RegexTree),
    Call(Name, Vec<ExprTree>),
}

/// A type.
#[derive(Drop)]
pub struct TypeTree {
    pub at: Place,
    pub form: TypeForm,
}

/// Whole numbers between two bounds, a list of names, or a name for a type.
#[derive(Drop)]
pub enum TypeForm {
    Boolean,
    Range(ExprTree, ExprTree),
    Names(Vec<Name>),
    Named(Name),
}

/// An expression. `first` is the place of its first token, opening parentheses included. `at` is the place of its
/// operator (of `And` and `Or` the first one), or of the name, word or number that it is. Parentheses make no node.
#[cycle(tree)]
#[derive(Drop)]
pub struct ExprTree {
    pub first: Place,
    pub at: Place,
    pub form: ExprForm,
}

/// An operator before its operand.
#[derive(Clone, Copy, PartialEq, Eq)]
pub enum PrefixWord {
    Not,
    Prev,
    Once,
    Historically,
}

/// An operator between two operands.
#[derive(Clone, Copy, PartialEq, Eq)]
pub enum BinaryWord {
    Implies,
    Iff,
    Since,
    Triggered,
    Eq,
    Ne,
    Lt,
    Le,
    Gt,
    Ge,
    Add,
    Sub,
    Mul,
}

/// What an expression is made of. A number is whether `-` stands before it, and its digits as written. The place in
/// `Mod` is that of its number. `And` and `Or` have all their operands, and the places of the operators between them.
/// The three trees of a quantifier are its lower bound, its upper bound and its body.
#[cycle(tree)]
pub enum ExprForm {
    True,
    False,
    Number(bool, String),
    Read(Name),
    Call(Name, Vec<ExprTree>),
    Next(Box<ExprTree>),
    Prefix(PrefixWord, Box<ExprTree>),
    Binary(BinaryWord, Box<ExprTree>, Box<ExprTree>),
    Mod(Box<ExprTree>, Place, String),
    And(Vec<ExprTree>, Vec<Place>),
    Or(Vec<ExprTree>, Vec<Place>),
    Index(Name, Box<ExprTree>),
    ForAll(Name, Box<ExprTree>, Box<ExprTree>, Box<ExprTree>),
    Exists(Name, Box<ExprTree>, Box<ExprTree>, Box<ExprTree>),
}

impl Drop for ExprForm {
    /// A loop over first operands, what stands in an index and the bodies of quantifiers, since a sum nests to the left
    /// as deep as its text is long. Only the other operands are a recursion, and brackets bound how deep those nest.
    #[cycle(tree)]
    fn drop(mut self) {
        loop {
            match self {
                ExprForm::True | ExprForm::False => return,
                ExprForm::Number(_, _digits) => return,
                ExprForm::Read(_name) => return,
                ExprForm::Call(_name, _arguments) => return,
                ExprForm::And(_operands, _operators) => return,
                ExprForm::Or(_operands, _operators) => return,
                ExprForm::Next(first) => self = Box::into_inner(first).form,
                ExprForm::Prefix(_, first) => self = Box::into_inner(first).form,
                ExprForm::Mod(first, _, _digits) => self = Box::into_inner(first).form,
                ExprForm::Binary(_, first, _second) => self = Box::into_inner(first).form,
                ExprForm::Index(_name, inner) => self = Box::into_inner(inner).form,
                ExprForm::ForAll(_name, _low, _high, body) => self = Box::into_inner(body).form,
                ExprForm::Exists(_name, _low, _high, body) => self = Box::into_inner(body).form,
            }
        }
    }
}

/// A regular expression over positions. `Cat` and `Alt` have all their parts.
pub enum RegexTree {
    Atom(Box<ExprTree>),
    Cat(Vec<RegexTree>),
    Alt(Vec<RegexTree>),
    Repeat(Box<RegexTree>, RepeatTree),
}

impl Drop for RegexTree {
    /// A loop over repeated parts, since repeats nest as deep as the text is long. Only the parts of `Cat` and `Alt`
    /// are a recursion, and brackets bound how deep those nest.
    fn drop(mut self) {
        loop {
            match self {
                RegexTree::Atom(_formula) => return,
                RegexTree::Cat(_parts) => return,
                RegexTree::Alt(_parts) => return,
                RegexTree::Repeat(part, _times) => self = Box::into_inner(part),
            }
        }
    }
}

/// How often a part is repeated, with numbers as written.
#[derive(Drop)]
pub enum RepeatTree {
    Star,
    Plus,
    Optional,
    Exactly(String),
    Between(String, String),
}
