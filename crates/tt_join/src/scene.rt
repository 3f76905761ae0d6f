//! What the rules of coming in look at.
use std::alloc::Global;
use tt_frame::Digest;
use tt_members::Member;
use tt_world::Setup;

/// What the rules of coming in look at. It owns nothing.
#[derive(Clone, Copy)]
pub struct Scene<'a> {
    /// Where memory comes from.
    pub alloc: Global,
    /// The settings of the game.
    pub setup: &'a Setup,
    /// The members, in order of arrival.
    pub members: &'a [Member],
    /// The companies with a password, each with its digest.
    pub digests: &'a [(u8, Digest)],
    /// The frame.
    pub frame: u32,
}
