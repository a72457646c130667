//! The sixteen category codes of characters (The TeXbook, chapter 7).

/// Begins a name, as `\` does at first.
pub const ESCAPE: u8 = 0;

/// Begins a group, as `{` does at first.
pub const BEGIN_GROUP: u8 = 1;

/// Ends a group, as `}` does at first.
pub const END_GROUP: u8 = 2;

/// Begins and ends a formula, as `$` does at first.
pub const MATH_SHIFT: u8 = 3;

/// Separates cells, as `&` does at first.
pub const ALIGNMENT: u8 = 4;

/// Ends a line, as code 13 does at first.
pub const END_OF_LINE: u8 = 5;

/// Marks a parameter, as `#` does at first.
pub const PARAMETER: u8 = 6;

/// Raises, as `^` does at first.
pub const SUPERSCRIPT: u8 = 7;

/// Lowers, as `_` does at first.
pub const SUBSCRIPT: u8 = 8;

/// Is passed over, as code 0 is at first.
pub const IGNORED: u8 = 9;

/// Is a space, as the space and the tab are at first.
pub const SPACE: u8 = 10;

/// Is a letter of names, as the ASCII letters are at first.
pub const LETTER: u8 = 11;

/// Is a character that is none of the others.
pub const OTHER: u8 = 12;

/// Acts as a name does, as `~` does at first.
pub const ACTIVE: u8 = 13;

/// Begins a comment, as `%` does at first.
pub const COMMENT: u8 = 14;

/// May not stand in a file, as code 127 may not at first.
pub const INVALID: u8 = 15;

// The numbers are promised to users.
const _: () = prove!(ESCAPE == 0);

const _: () = prove!(BEGIN_GROUP == 1);

const _: () = prove!(END_GROUP == 2);

const _: () = prove!(MATH_SHIFT == 3);

const _: () = prove!(ALIGNMENT == 4);

const _: () = prove!(END_OF_LINE == 5);

const _: () = prove!(PARAMETER == 6);

const _: () = prove!(SUPERSCRIPT == 7);

const _: () = prove!(SUBSCRIPT == 8);

const _: () = prove!(IGNORED == 9);

const _: () = prove!(SPACE == 10);

const _: () = prove!(LETTER == 11);

const _: () = prove!(OTHER == 12);

const _: () = prove!(ACTIVE == 13);

const _: () = prove!(COMMENT == 14);

const _: () = prove!(INVALID == 15);
