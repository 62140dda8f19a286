//! An evening served: its setup from a file, the workers that serve connections and direct waves beside each other on one lobby,
//! and what is written once all of them have ended. The layer above relies on `load_setup` (`specs/Loads.antt`: what the bytes of
//! a file come to) and on `serve_arena` (`specs/Evenings.antt`: which history an evening leaves, and what is written of it), whose
//! workers are `worker` (`specs/Works.antt`: why a worker ends).
#![tactic(auto)]

mod evening;
mod laws;
mod load;
mod record;
mod serve_end;
mod shift;
mod workers;
mod working;

pub use evening::serve_arena;
pub use laws::someone_saw_it_whole;
pub use load::{LoadFault, load_setup};
pub use serve_end::ServeEnd;
pub use workers::{Worker, WorkerEnd};
pub use working::worker;
