//! What the programs share of a script: its games, why there are none, and what is printed of it.
#![tactic(auto)]

mod fetch;
mod given;
mod playing;
mod problems;
mod refusal;

// Files by name.
pub use fetch::fetch_all;

// The games of a script.
pub use given::{GamesFault, ScriptGames};
pub use playing::{games_in, read_games};
pub use problems::problems_of;

// What is printed where there are none.
pub use refusal::refusal_line;
