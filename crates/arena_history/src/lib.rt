//! What is said of an arena's entries: the definitions that the layers above cite, and their laws. Each is a plain function of
//! a setup and of the history of a list of entries.
//!
//! `specs/History.antt` has the record of a history, `Games.antt` the games that it begins, what happened in them and which
//! run, `Endings.antt` which games an entry ends and which count, `Wishes.antt` and `Stands.antt` what each player wishes and
//! where he is, `Results.antt` and `Table.antt` what the counted games come to, `Snapshots.antt` what a wave is planned from,
//! `Waves.antt` which games it begins and with it the history of a list of entries, `Since.antt` since when somebody is idle,
//! and `Changes.antt` what one entry more changes for a player.
//!
//! The layers above rely on the laws: each is a public function that does nothing, whose contract holds of every setup and
//! every list of entries, legal or not. They say what one entry more changes of every word, and in the words of the game that
//! nobody plays two games at once, that each game that ended in time counts once, and which games a wave begins.
#![tactic(auto)]

mod laws;

pub use laws::{
    beginnings_are_histories, candidates_with_one_more, events_are_entries, games_count_once,
    games_end, games_with_one_more, idle_players, lines_with_one_more, places_with_one_more,
    players_sit_in_their_games, rows_are_in_range, table_is_in_order, waves_are_few,
    waves_begin_games, waves_list_their_games, wishes_of_players,
};
