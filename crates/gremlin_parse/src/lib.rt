//! The grammar of the console's lines, and the reader that gives a line's session, and its command
//! or the leftmost fault with its place. A line is read once; each of its names and texts is copied
//! once.
#![tactic(auto)]

mod argument;
mod bad_token;
mod byte_kind;
mod command;
mod comparison;
mod direction;
mod draft;
mod grammar_laws;
mod head;
mod keyword;
mod last;
mod laws;
mod line_fault;
mod mutation;
mod number;
mod order;
mod pair;
mod parsed_line;
mod parts;
mod query;
mod quoted_name;
mod reader;
mod repeat;
mod source;
mod stage;
mod step;
mod step_word;
mod stop;
mod tag;
mod target;
mod text;
mod value;
mod viewed;
mod word;

pub use grammar_laws::queries_are_produced;
pub use laws::views_make_again;
pub use line_fault::LineFault;
pub use parsed_line::ParsedLine;
pub use reader::parse_line;
