#![tactic(auto)]

pub mod arguments;
pub mod help;
pub mod image;
pub mod part;
pub mod script;
pub mod streams;
pub mod words;
