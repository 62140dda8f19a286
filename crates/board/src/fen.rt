// FEN: how a position is written, and read again field by field.
mod board;
mod cut;
mod fault;
mod read;
mod values;
mod write;

pub use fault::FenFault;
pub use read::read_fen;
pub use write::write_fen;
