//! The characters that mean something in a quantity, by their codes.

/// Begins a hexadecimal number.
pub const DOUBLE_QUOTE: u32 = 34;

/// Begins an octal number.
pub const SINGLE_QUOTE: u32 = 39;

/// Changes nothing before a quantity.
pub const PLUS_SIGN: u32 = 43;

/// A decimal point.
pub const COMMA: u32 = 44;

/// Turns a quantity.
pub const MINUS_SIGN: u32 = 45;

/// A decimal point.
pub const POINT: u32 = 46;

/// The first digit.
pub const ZERO: u32 = 48;

/// The last decimal digit.
pub const NINE: u32 = 57;

/// The first capital, and the first digit above nine.
pub const CAPITAL_A: u32 = 65;

/// The last hexadecimal digit.
pub const CAPITAL_F: u32 = 70;

/// The last capital.
pub const CAPITAL_Z: u32 = 90;

/// Stands before a character whose code is the number.
pub const BACKQUOTE: u32 = 96;

/// The first small letter.
pub const SMALL_A: u32 = 97;

/// The last small letter.
pub const SMALL_Z: u32 = 122;

// The definitions speak of these characters by their codes.
const _: () = prove!(DOUBLE_QUOTE == 34);

const _: () = prove!(SINGLE_QUOTE == 39);

const _: () = prove!(PLUS_SIGN == 43);

const _: () = prove!(COMMA == 44);

const _: () = prove!(MINUS_SIGN == 45);

const _: () = prove!(POINT == 46);

const _: () = prove!(ZERO == 48);

const _: () = prove!(NINE == 57);

const _: () = prove!(CAPITAL_A == 65);

const _: () = prove!(CAPITAL_F == 70);

const _: () = prove!(CAPITAL_Z == 90);

const _: () = prove!(BACKQUOTE == 96);

const _: () = prove!(SMALL_A == 97);

const _: () = prove!(SMALL_Z == 122);
