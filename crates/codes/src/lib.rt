// The codes of the format by name: bytes of the text, letters of values, letters and fields of table rows, kinds of T and P lines.
#![tactic(auto)]

// Bytes between and behind the fields, and the letters of a query and of a script's line.
pub const LINE_FEED: u8 = 10;

pub const CARRIAGE_RETURN: u8 = 13;

pub const COMMA: u8 = 44;

pub const DIGIT_ZERO: u8 = 48;

pub const DIGIT_NINE: u8 = 57;

pub const LETTER_Q: u8 = 81;

pub const LETTER_S: u8 = 83;

// The letters of a closed value.
pub const LETTER_UNIT: u8 = 85;

pub const LETTER_LEFT: u8 = 76;

pub const LETTER_RIGHT: u8 = 82;

pub const LETTER_PAIR: u8 = 80;

pub const LETTER_EMPTY: u8 = 78;

pub const LETTER_ELEMENT: u8 = 75;

// A row's first number is its line's letter.
pub const ROW_LETTER: usize = 0;

pub const TYPE_LINE: usize = 84;

pub const PATTERN_LINE: usize = 80;

pub const ISO_LINE: usize = 73;

pub const CLAUSE_LINE: usize = 67;

pub const LET_LINE: usize = 76;

// The numbers of a T or P row: its kind, and what it names.
pub const KIND: usize = 1;

pub const FIRST: usize = 2;

pub const SECOND: usize = 3;

// The fifth number of a T or P row: the nodes that it unfolds to.
pub const SIZE: usize = 4;

// The kinds of T lines.
pub const TYPE_UNIT: usize = 0;

pub const SUM: usize = 1;

pub const PRODUCT: usize = 2;

pub const LIST: usize = 3;

// The kinds of P lines; a variable's number stands where others name their first part.
pub const UNIT: usize = 0;

pub const VARIABLE: usize = 1;

pub const LEFT: usize = 2;

pub const RIGHT: usize = 3;

pub const PAIR: usize = 4;

pub const EMPTY: usize = 5;

pub const ELEMENT: usize = 6;

// The numbers of I, C and L rows.
pub const ISO_FROM: usize = 1;

pub const ISO_TO: usize = 2;

pub const CLAUSE_LEFT: usize = 1;

pub const CLAUSE_RIGHT: usize = 2;

pub const LET_P: usize = 1;

pub const LET_ISO: usize = 2;

pub const LET_Q: usize = 3;
