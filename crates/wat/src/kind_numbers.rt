// The numbers of kinds in token records: one of the first fifteen, and the sum of the flags that the kind has.
use super::TokenKind;

impl TokenKind {
    pub const LINE_COMMENT: u16 = 1;

    pub const BLOCK_COMMENT: u16 = 2;

    pub const WHITESPACE: u16 = 3;

    pub const LPAREN: u16 = 4;

    pub const RPAREN: u16 = 5;

    pub const STRING: u16 = 6;

    pub const ID: u16 = 7;

    pub const KEYWORD: u16 = 8;

    pub const ANNOTATION: u16 = 9;

    pub const RESERVED: u16 = 10;

    pub const INTEGER: u16 = 11;

    pub const INF: u16 = 12;

    pub const NAN: u16 = 13;

    pub const NAN_VAL: u16 = 14;

    pub const NORMAL: u16 = 15;

    pub const PLUS: u16 = 256;

    pub const MINUS: u16 = 512;

    pub const UNDERSCORES: u16 = 1024;

    pub const HEX: u16 = 2048;
}
