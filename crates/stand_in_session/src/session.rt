//! A session at the stand-in.

use stand_in_device::Picture;

/// A stream of access units under edits, with the pictures of the stand-in.
pub type Session = stream_session::Session<Picture>;

/// What is shown of a unit: the stand-in's picture.
pub type Shown = stream_session::Shown<Picture>;
