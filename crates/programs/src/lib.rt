// What the programs print, from text to page.
#![tactic(auto)]

mod list;
mod replay;
mod skiffplank;

pub use limits::Plan;
pub use replay::replay_page;
pub use skiffplank::search_page;
