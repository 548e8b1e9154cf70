//! Files that are saved whole: written beside the one that they replace, and then put in its place.
//!
//! `save_in` does that in a `Folder`, which begins a draft, adds to it, and puts it in a file's place
//! or discards it. Clauses say that the file has all bytes then, where that is known, or that each
//! file has what it had; and that no draft stands there afterwards. The operating system's files are
//! a `Folder` whose draft is synchronised and renamed. `Saving` is what saves in a directory, and
//! `Saver` a source that its files are saved to; serve_calls, which stands above, saves by it.

mod folder;
mod host;
mod saver;

pub use folder::{Folder, Unsaved, save_in};
pub use saver::{Saver, Saving};

#[cfg(test)]
mod tests;
