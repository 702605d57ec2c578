//! The numbers of refusals, by the names that stand in their texts.

pub const SYNTAX: u8 = 1;

pub const NO_OBJECT: u8 = 2;

pub const NO_PROPERTY: u8 = 3;

pub const NAME_TAKEN: u8 = 4;

pub const BAD_NAME: u8 = 5;

pub const LABEL_TAKEN: u8 = 6;

pub const BAD_LABEL: u8 = 7;

pub const READ_ONLY: u8 = 8;

pub const WRONG_TYPE: u8 = 9;

pub const OUT_OF_RANGE: u8 = 10;

pub const EXPR_SYNTAX: u8 = 11;

pub const UNKNOWN_REFERENCE: u8 = 12;

pub const NOT_DYNAMIC: u8 = 13;

pub const CYCLE: u8 = 14;

pub const UNIT_MISMATCH: u8 = 15;

pub const KIND_MISMATCH: u8 = 16;

pub const EXPONENT_RANGE: u8 = 17;

pub const NOT_OVERRIDDEN: u8 = 18;

pub const SHEET_EDGE: u8 = 19;

pub const CELL_TAKEN: u8 = 20;

pub const BAD_ALIAS: u8 = 21;

pub const ALIAS_TAKEN: u8 = 22;

pub const LINK_KIND: u8 = 23;

pub const TRANSACTION_OPEN: u8 = 24;

pub const NO_TRANSACTION: u8 = 25;

pub const NOTHING_TO_UNDO: u8 = 26;

pub const NOTHING_TO_REDO: u8 = 27;

pub const NOT_RECOMPUTED: u8 = 28;

pub const TOO_MANY: u8 = 29;

pub const NO_FEATURE: u8 = 30;

pub const NOT_BUILT: u8 = 99;
