//! Laws on all frames of a machine: each is free, of one or more spaces, or of something else.
//!
//! Each function here does nothing: its contract is the law.

ghost use Rattle.vm.specs.Shares.{FreeAreTheRest, NewSpaceSettles, OnePlaceForks, OnePlaceSpares, OnePlaceSparesOthers};
ghost use Rattle.vm.specs.Shares.{OnePlaceTrades, OthersSpare, OthersTrade};

/// One slot trades what it holds, as a space that grows, shrinks, is written, is made, goes or is
/// replaced: the machine stays one, and all else is as it was.
pub fn one_place_trades()
    ensures machine { OnePlaceTrades }
    ensures untouched { OnePlaceSpares }
    ensures rest { OnePlaceSparesOthers }
{}

/// A space shares its frames with a new one, which gets a slot that has none: the machine stays one, and all else is
/// as it was.
pub fn one_place_forks()
    ensures machine { OnePlaceForks }
{}

/// Frames that no space holds are taken, each once, given back or written: the machine stays one, and all spaces are as
/// they were.
pub fn others_trade()
    ensures machine { OthersTrade }
    ensures untouched { OthersSpare }
{}

/// A space that was made beside the others gets a slot that has none.
pub fn new_space_settles()
    ensures { NewSpaceSettles }
{}

/// The free frames are all frames except those that the spaces, each in full, and the others need.
pub fn free_frames_are_the_rest()
    ensures { FreeAreTheRest }
{}
