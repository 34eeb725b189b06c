#![tactic(auto)]

pub mod hexadecimal;
pub mod refusal;
pub mod script;
pub mod text;
pub mod words;

pub use text::Text;
