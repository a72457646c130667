//! The numbers of the faults of a text, and the name of each.

ghost use Rattle.std.specs.Prelude.{◌≡◌};
ghost use Rattle.texml_token.specs.Faults.{fault_name};

/// A name or an active character that has no meaning, or an unknown counter.
pub const UNDEFINED: u8 = 1;

/// The end of a group that hasn't begun, in an argument or a formula.
pub const EXTRA_BRACE: u8 = 2;

/// `\par` where it may not stand.
pub const RUNAWAY_PAR: u8 = 3;

/// The file ended inside what it had begun.
pub const FILE_ENDED: u8 = 4;

/// The use of a macro that doesn't match its definition.
pub const MISMATCH: u8 = 5;

/// No quantity where one has to stand, or no relation in a test.
pub const MISSING_NUMBER: u8 = 6;

/// A number past 2147483647.
pub const NUMBER_TOO_BIG: u8 = 7;

/// A dimension past 2^30 - 1 scaled points.
pub const DIMENSION_TOO_LARGE: u8 = 8;

/// No unit of measure, or more than three `l` in one.
pub const ILLEGAL_UNIT: u8 = 9;

/// An arithmetic result that is out of range.
pub const OVERFLOW: u8 = 10;

/// The number of a character or a register that is out of range.
pub const BAD_CODE: u8 = 11;

/// `\else`, `\or` or `\fi` where it may not stand.
pub const EXTRA_COND: u8 = 12;

/// Something else than characters in a name.
pub const MISSING_ENDCSNAME: u8 = 13;

/// A parameter character in a definition without the digit that has to follow it.
pub const BAD_PARAMETER: u8 = 14;

/// A character of the category `INVALID`.
pub const INVALID_CHAR: u8 = 15;

/// The end of a group that began in another way.
pub const GROUP_MISMATCH: u8 = 16;

/// The end of a group where none has begun.
pub const NO_GROUP: u8 = 17;

/// A token where it has no place.
pub const MISPLACED: u8 = 18;

/// There is no file of this name.
pub const MISSING_FILE: u8 = 19;

/// A line that isn't UTF-8.
pub const NOT_UTF8: u8 = 20;

/// A prefix before something else than a definition or an assignment that takes it.
pub const BAD_PREFIX: u8 = 21;

/// No brace where a group in braces has to begin.
pub const MISSING_BRACE: u8 = 22;

/// A name that has a meaning already where a new one is made.
pub const NAME_TAKEN: u8 = 23;

/// The end of another environment than the one that began.
pub const ENVIRONMENT_MISMATCH: u8 = 24;

/// Nested more deeply than is allowed.
pub const DEPTH: u8 = 25;

/// The name of a fault by its number, which is empty where no fault has this number.
pub fn name_of(code: u8) -> &'static str
    ensures { result.now ≡ fault_name code }
{
    match code {
        UNDEFINED => "Undefined",
        EXTRA_BRACE => "ExtraBrace",
        RUNAWAY_PAR => "RunawayPar",
        FILE_ENDED => "FileEnded",
        MISMATCH => "Mismatch",
        MISSING_NUMBER => "MissingNumber",
        NUMBER_TOO_BIG => "NumberTooBig",
        DIMENSION_TOO_LARGE => "DimensionTooLarge",
        ILLEGAL_UNIT => "IllegalUnit",
        OVERFLOW => "Overflow",
        BAD_CODE => "BadCode",
        EXTRA_COND => "ExtraCond",
        MISSING_ENDCSNAME => "MissingEndcsname",
        BAD_PARAMETER => "BadParameter",
        INVALID_CHAR => "InvalidChar",
        GROUP_MISMATCH => "GroupMismatch",
        NO_GROUP => "NoGroup",
        MISPLACED => "Misplaced",
        MISSING_FILE => "MissingFile",
        NOT_UTF8 => "NotUtf8",
        BAD_PREFIX => "BadPrefix",
        MISSING_BRACE => "MissingBrace",
        NAME_TAKEN => "NameTaken",
        ENVIRONMENT_MISMATCH => "EnvironmentMismatch",
        DEPTH => "Depth",
        0 => "",
        26..=u8::MAX => "",
    }
}

// The numbers are promised to users.
const _: () = prove!(UNDEFINED == 1);

const _: () = prove!(EXTRA_BRACE == 2);

const _: () = prove!(RUNAWAY_PAR == 3);

const _: () = prove!(FILE_ENDED == 4);

const _: () = prove!(MISMATCH == 5);

const _: () = prove!(MISSING_NUMBER == 6);

const _: () = prove!(NUMBER_TOO_BIG == 7);

const _: () = prove!(DIMENSION_TOO_LARGE == 8);

const _: () = prove!(ILLEGAL_UNIT == 9);

const _: () = prove!(OVERFLOW == 10);

const _: () = prove!(BAD_CODE == 11);

const _: () = prove!(EXTRA_COND == 12);

const _: () = prove!(MISSING_ENDCSNAME == 13);

const _: () = prove!(BAD_PARAMETER == 14);

const _: () = prove!(INVALID_CHAR == 15);

const _: () = prove!(GROUP_MISMATCH == 16);

const _: () = prove!(NO_GROUP == 17);

const _: () = prove!(MISPLACED == 18);

const _: () = prove!(MISSING_FILE == 19);

const _: () = prove!(NOT_UTF8 == 20);

const _: () = prove!(BAD_PREFIX == 21);

const _: () = prove!(MISSING_BRACE == 22);

const _: () = prove!(NAME_TAKEN == 23);

const _: () = prove!(ENVIRONMENT_MISMATCH == 24);

const _: () = prove!(DEPTH == 25);
