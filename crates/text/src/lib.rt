// The text of a recording: its tokens, and what it says.
#![tactic(auto)]

mod build;
pub mod fault;
pub mod language;
pub mod laws;
pub mod lexer;
pub mod numbers;
pub mod place;
pub mod reader;
pub mod reading;
pub mod recording;
pub mod token;

pub use fault::{ReadFault, TextFault};
pub use language::{Language, Recordings, Rules};
pub use lexer::place_at;
pub use numbers::Number;
pub use place::Place;
pub use reader::Reader;
pub use reading::{LONGEST, admit, read};
pub use recording::Recording;
pub use token::Token;
