//! The faults of texts: the number and the word of each. docs/LANGUAGE.md says where each comes and where it is placed.

ghost use Rattle.std.specs.Prelude.{◌≡◌};
ghost use Rattle.spectra_trees.specs.Faults.{fault_text as fault_text_lem};

/// The bytes aren't UTF-8.
pub const NOT_UTF8: u8 = 1;
/// No token begins at a character.
pub const BAD_CHARACTER: u8 = 2;
/// The text has too many bytes.
pub const TOO_LONG: u8 = 3;
/// A token goes on no text.
pub const UNEXPECTED: u8 = 4;
/// A token opens a level too many.
pub const TOO_DEEP: u8 = 5;
/// An operator behind a whole expression wants parentheses.
pub const PARENTHESES: u8 = 6;
/// A name is declared nowhere.
pub const UNKNOWN: u8 = 7;
/// A name is declared again.
pub const TWICE: u8 = 8;
/// An operand or a name is not of the kind that is wanted there.
pub const WRONG_TYPE: u8 = 9;
/// `next` stands where no next position is.
pub const NEXT_HERE: u8 = 10;
/// `next` stands in another `next` or in a past operator, or one of these in a `next`.
pub const NEXT_NESTED: u8 = 11;
/// An assumption reads the next value of a variable of the system.
pub const NEXT_OF_SYSTEM: u8 = 12;
/// An initial assumption reads a variable of the system.
pub const SYSTEM_IN_INITIAL: u8 = 13;
/// A range or a span has no number, or too many.
pub const WIDE_INT: u8 = 14;
/// A definition uses itself.
pub const CYCLE: u8 = 15;
/// A predicate is given a wrong number of arguments.
pub const ARITY: u8 = 16;
/// An imported file has an import, a variable, a monitor or a line.
pub const IMPORTED_LINE: u8 = 17;
/// There are too many variables, lines, names or files.
pub const TOO_MANY: u8 = 18;
/// The formulas are too large or too deep.
pub const TOO_LARGE: u8 = 19;
/// A pattern's own variables aren't determined.
pub const PATTERN_OPEN: u8 = 20;
/// A pattern has too many parameters, or its own variables too many values.
pub const PATTERN_WIDE: u8 = 21;
/// A trigger has too many atoms, positions or states, or a repeat that counts too far or backwards.
pub const TRIGGER_WIDE: u8 = 22;
/// An index may be none of its array's.
pub const OUT_OF_BOUNDS: u8 = 25;
/// An array has no element, or too many.
pub const WIDE_ARRAY: u8 = 26;

/// The number and the word of a fault, as an answer shows them.
pub fn fault_text(number: u8) -> &'static str
    ensures { result.now ≡ fault_text_lem number }
{
    match number {
        NOT_UTF8 => "1 NotUtf8",
        BAD_CHARACTER => "2 BadCharacter",
        TOO_LONG => "3 TooLong",
        UNEXPECTED => "4 Unexpected",
        TOO_DEEP => "5 TooDeep",
        PARENTHESES => "6 Parentheses",
        UNKNOWN => "7 Unknown",
        TWICE => "8 Twice",
        WRONG_TYPE => "9 WrongType",
        NEXT_HERE => "10 NextHere",
        NEXT_NESTED => "11 NextNested",
        NEXT_OF_SYSTEM => "12 NextOfSystem",
        SYSTEM_IN_INITIAL => "13 SystemInInitial",
        WIDE_INT => "14 WideInt",
        CYCLE => "15 Cycle",
        ARITY => "16 Arity",
        IMPORTED_LINE => "17 ImportedLine",
        TOO_MANY => "18 TooMany",
        TOO_LARGE => "19 TooLarge",
        PATTERN_OPEN => "20 PatternOpen",
        PATTERN_WIDE => "21 PatternWide",
        OUT_OF_BOUNDS => "25 OutOfBounds",
        WIDE_ARRAY => "26 WideArray",
        _ => "22 TriggerWide",
    }
}
