// Document 01's sheet: bytes in, bytes out.
#![tactic(auto)]

mod answer_line;
mod fields;
mod hex;
mod sheet_text;
mod value_line;

pub use fields::field;
pub use hex::read_hex;
pub use sheet_text::{LIMIT, ROOM, answer, answer_sheet, answer_sheet_into};
pub use value_line::{Values, read_line};
