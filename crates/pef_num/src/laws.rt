//! The laws of doublewords and addresses: each is the contract of a function that does nothing.

ghost use Rattle.pef_num.specs.DoublewordLaw.{PutIsRead, PutLeavesDoublewords, PutLeavesBytes, PutsHighestFirst, PutLeavesLength, PutGivesBytes, DoublewordFits};
ghost use Rattle.pef_num.specs.AddressLaw.{FramesHaveAddresses, PlacesHaveAddresses};

/// The doubleword that is read is the one last put there.
pub fn put_is_read()
    ensures { PutIsRead }
{}

/// A doubleword that does not overlap the one that is put stays.
pub fn put_leaves_doublewords()
    ensures { PutLeavesDoublewords }
{}

/// A byte outside the eight that are put stays.
pub fn put_leaves_bytes()
    ensures { PutLeavesBytes }
{}

/// The bytes that are put are those of the value, the highest first.
pub fn puts_highest_first()
    ensures { PutsHighestFirst }
{}

/// A put leaves the number of bytes.
pub fn put_leaves_length()
    ensures { PutLeavesLength }
{}

/// What is put among bytes is bytes, each below 256.
pub fn put_gives_bytes()
    ensures { PutGivesBytes }
{}

/// The doubleword that is read in bytes is below 2^64.
pub fn doubleword_fits()
    ensures { DoublewordFits }
{}

/// A frame's number is found at the number times the frame's size, and nowhere else.
pub fn frames_have_addresses()
    ensures { FramesHaveAddresses }
{}

/// A place is found at its page's number times the page's size, and its offset from there, and nowhere else.
pub fn places_have_addresses()
    ensures { PlacesHaveAddresses }
{}
