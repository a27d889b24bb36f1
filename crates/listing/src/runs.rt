// What a run over an accepted recording takes and writes.
ghost use Rattle.std.specs.Prelude.{◌≡◌, ◌≤◌, false};
ghost use Rattle.recording.specs.Recording.{bad_units};
ghost use Rattle.listing.specs.Runnable.{Column, Runnable, Room, Spare};

use recording::Header;

// The header, each unit's column, and places for what a run writes: words, marks, last fields, and what is not listed.
#[derive(Drop)]
pub(crate) struct Run<'a> {
    pub(crate) h: Header,
    pub(crate) one: &'a [u32],
    pub(crate) two: &'a [u32],
    pub(crate) three: &'a [u32],
    pub(crate) four: &'a [u32],
    pub(crate) words: &'a mut [u32],
    pub(crate) marks: &'a mut [u8],
    pub(crate) lasts: &'a mut [u32],
    pub(crate) spare: &'a mut [u32],
    pub(crate) which: &'a mut [u8],
    ghost runnable: { Runnable h },
    ghost known: { bad_units h.units ≡ false },
    ghost first: { Column h one.now },
    ghost second: { 2 ≤ h.units → Column h two.now },
    ghost third: { 4 ≤ h.units → Column h three.now },
    ghost fourth: { 4 ≤ h.units → Column h four.now },
    ghost room: { Room h words.now marks.now lasts.now },
    ghost free: { Spare h spare.now },
    ghost told: { Spare h which.now },
}
