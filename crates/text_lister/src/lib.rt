// The lister's text: a line and the listing.
#![tactic(auto)]

pub mod line;
