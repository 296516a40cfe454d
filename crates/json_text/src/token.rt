// The tokens of a text: its characters, numerals and strings.
pub(crate) mod chars;
pub(crate) mod lex;
mod numeral;
pub(crate) mod string;
