//! The picture whose slices come.
ghost use Rattle.std.specs.Prelude.{◌≡◌, true};
ghost use Rattle.hevc_walk.specs.Walk.{is_decoded};
ghost use Rattle.hevc_driver.specs.Heads.{head_of};

use crate::head::Head;

/// A picture that is decoded: its order count is in range, and it isn't skipped.
#[derive(Drop)]
pub struct Open<P> {
    pub head: Head,
    /// The backend's.
    pub picture: P,
    ghost decoded: { is_decoded (head_of head) ≡ true },
}

/// The picture whose slices come, if any.
#[derive(Drop)]
pub enum Current<P> {
    NoPicture,
    /// Its slices are passed over.
    SkippedPicture,
    OpenPicture(Open<P>),
}
