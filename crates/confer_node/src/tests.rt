//! The parts of a run, without threads and sockets.

mod journals;
mod lines;
mod parts;
mod runs;
mod sessions;
