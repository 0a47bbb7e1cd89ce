//! The laws of the pool and of a frame's bytes: each is the contract of a function that does nothing.

ghost use Rattle.pef_frames.specs.PoolLaw.{StartsWithEachOnce, TakeMovesOne, GiveMovesOne, GiveUndoesTake, TakeFindsGiven, WritesAllBytes};

/// In a full pool each number below the count is free once, and no other number is free.
pub fn starts_with_each_once()
    ensures { StartsWithEachOnce }
{}

/// Taking a frame takes its number out of the free ones, once, and leaves every other.
pub fn take_moves_one()
    ensures { TakeMovesOne }
{}

/// Giving a frame back puts its number among the free ones, once, and leaves every other.
pub fn give_moves_one()
    ensures { GiveMovesOne }
{}

/// A frame that is taken and given back leaves the pool as it was.
pub fn give_undoes_take()
    ensures { GiveUndoesTake }
{}

/// The next frame that is taken is the one last given, all zero, and the pool is then as before.
pub fn take_finds_given()
    ensures { TakeFindsGiven }
{}

/// A frame whose bytes are all written through a reference has exactly those bytes.
pub fn writes_all_bytes()
    ensures { WritesAllBytes }
{}
