//! The laws of the definitions: each is the contract of a function that does nothing.

ghost use Rattle.pef_model.specs.RunLaw.{OneRun, StoreAndLoad, OneFrame, MarksOfOneFrame, StampsOfOneFrame, NoneIsBorn, GoesOut, EachGoAllEnds, NextsOfTwoCpus};
ghost use Rattle.pef_model.specs.ReadLaw.{EachOwnEntriesDecide, TheseFieldsDecide, TouchedObjectsDecide, AskedIsTold, UnaskedMakesNoDifference};
ghost use Rattle.pef_model.specs.SecretLaw.{NoSecretInPublicState, NoSecretInOneEntry, NoSecretInDeeds};
ghost use Rattle.pef_model.specs.SearchLaw.{LastStoreIsNewest, RegIsNewest, LoadGivesLastStore, SecurePageIsReached, LastStoreIsStored, LastStoreIsZero};
ghost use Rattle.pef_model.specs.Alike.{AlikeShowTheSame, AlikeClashTogether, OpenIsAlike, UnsealedIsAlike};
ghost use Rattle.pef_model.specs.SeenReport.{AlikeReportTheSame, AlikeSoundPartsReportTheSame, SecretsGiveAlikeRuns};
ghost use Rattle.pef_model.specs.PairLaw.{SecretStaysIn, ViewShowsStores, NormalGuestsHideNothing, WhatIsNotLetOutStaysIn, StreamTells, VaultIsShut};
ghost use Rattle.pef_model.specs.SeenLaw.{RegistersAreSeen, SeenIsShown};
ghost use Rattle.pef_model.specs.NormalLaw.{FramesHoldLastNorm, StoreIsLastNorm, LoadGivesLastNorm, EachPartitionEntryFits, LoadThroughGivesLastNorm, StoreThroughIsLastNorm, StepLeavesFrames, StoreLeavesGuests, WritesMakeFrames, EachMoveKeepsToItsObjects};

/// A secure guest that stores 7 loads 7, and the report says so.
pub fn store_and_load()
    ensures { StoreAndLoad }
{}

/// There is exactly one run of a script.
pub fn one_run()
    ensures { OneRun }
{}

/// An object's value after a history is decided by the entries that touch it; `last_store` and `reg` by those of their
/// guest, `last_norm` by those of its frame.
pub fn own_entries_decide()
    ensures { EachOwnEntriesDecide }
{}

/// An object's next value, a guest's memory and registers included, reads of an entry these fields and no others.
pub fn these_fields_decide()
    ensures { TheseFieldsDecide }
{}

/// Two histories whose entries differ at most in the value of a `g.li` and in the value that a guest's load gave have one
/// public state.
pub fn no_secret_in_public_state()
    ensures { NoSecretInPublicState }
{}

/// The last store is found by a search from the newest entry on.
pub fn last_store_is_newest()
    ensures { LastStoreIsNewest }
{}

/// The value of a register is found by a search from the newest entry on.
pub fn reg_is_newest()
    ensures { RegIsNewest }
{}

/// Each load of a private page that is done gives the last store.
pub fn load_gives_last_store()
    ensures { LoadGivesLastStore }
{}

/// In a guest that is Secure, under its generation, an access to a doubleword of a page that is Secure and at rest is done, and
/// a load gives the last store.
pub fn secure_page_is_reached()
    ensures { SecurePageIsReached }
{}

/// What was stored, and not overwritten, is the last store.
pub fn last_store_is_stored()
    ensures { LastStoreIsStored }
{}

/// Where nothing was stored the last store is 0.
pub fn last_store_is_zero()
    ensures { LastStoreIsZero }
{}

/// A guest's accesses on a machine with two CPUs and one secure frame: the report, computed from the definitions.
pub fn one_frame()
    ensures { OneFrame }
{}

/// The stamps of that run's entries.
pub fn stamps_of_one_frame()
    ensures { StampsOfOneFrame }
{}

/// The places of that run's entries.
pub fn marks_of_one_frame()
    ensures { MarksOfOneFrame }
{}

/// A machine in which no guest is born secure has no vCPU to return to.
pub fn none_is_born()
    ensures { NoneIsBorn }
{}

/// What a step does at a guest is decided by the guest's public part, but for the value of a load and the page that a
/// page-out seals.
pub fn no_secret_in_deeds()
    ensures { NoSecretInDeeds }
{}

/// Two entries that differ at most in the value of a `g.li` and in the value that a guest's load gave touch the same
/// objects and give equal next public values.
pub fn no_secret_in_one_entry()
    ensures { NoSecretInOneEntry }
{}

/// The objects that an entry touches decide whether it extends a history.
pub fn touched_objects_decide()
    ensures { TouchedObjectsDecide }
{}

/// A step that tells of the pool tells whether a frame was free where it needs one, and not where it only gives one back.
pub fn asked_is_told()
    ensures { AskedIsTold }
{}

/// Whether a frame is free makes no difference to a step that doesn't tell it.
pub fn unasked_makes_no_difference()
    ensures { UnaskedMakesNoDifference }
{}

/// The normal frames are what the writes that the hypervisor sees leave, on memory that begins with zeros.
pub fn writes_make_frames()
    ensures { WritesMakeFrames }
{}

/// The begin and the end of a page's move change no normal frame, and its copy no guest; that of a page-in only reads.
pub fn each_move_keeps_to_its_objects()
    ensures { EachMoveKeepsToItsObjects }
{}

/// The frames of the public state hold what was last written at each real address, by a store or by a copy.
pub fn frames_hold_last_norm()
    ensures { FramesHoldLastNorm }
{}

/// After a store of the hypervisor what was last written at its real address is what it stored.
pub fn store_is_last_norm()
    ensures { StoreIsLastNorm }
{}

/// Each load of the hypervisor that is done gives what was last written at its real address.
pub fn load_gives_last_norm()
    ensures { LoadGivesLastNorm }
{}

/// A guest's partition entry has at most the guest's pages, and a normal frame for each.
pub fn each_partition_entry_fits()
    ensures { EachPartitionEntryFits }
{}

/// A load of a guest that is done in a normal frame gives what was last written there, whoever wrote it.
pub fn load_through_gives_last_norm()
    ensures { LoadThroughGivesLastNorm }
{}

/// After a store of a guest that is done in a normal frame, the value last written there is that of its register.
pub fn store_through_is_last_norm()
    ensures { StoreThroughIsLastNorm }
{}

/// A step changes no normal frame but the one that it tells.
pub fn step_leaves_frames()
    ensures { StepLeavesFrames }
{}

/// The hypervisor's store changes no guest.
pub fn store_leaves_guests()
    ensures { StoreLeavesGuests }
{}

/// Two legal histories that agree but on secrets show the hypervisor the same at every prefix: equal public states, equal
/// views. It says nothing of histories whose guests let out different values, nor of time.
pub fn alike_show_the_same()
    ensures { AlikeShowTheSame }
{}

/// Two legal histories that are alike have their digest collisions at the same entries.
pub fn alike_clash_together()
    ensures { AlikeClashTogether }
{}

/// The view shows each step that the hypervisor sees, and no other.
pub fn seen_is_shown()
    ensures { SeenIsShown }
{}

/// The registers that the hypervisor can read in a CPU are those that the view showed of it last.
pub fn registers_are_seen()
    ensures { RegistersAreSeen }
{}

/// Two legal histories that are alike have reports that agree in the hypervisor's lines: the steps that it sees, the frames,
/// what is free.
pub fn alike_report_the_same()
    ensures { AlikeReportTheSame }
{}

/// The same of the parts before their first digest collision.
pub fn alike_sound_parts_report_the_same()
    ensures { AlikeSoundPartsReportTheSame }
{}

/// Two scripts that differ in secrets alone have alike runs, where the guests let out the same and the sealed pages are the
/// same or lie in a vault.
pub fn secrets_give_alike_runs()
    ensures { SecretsGiveAlikeRuns }
{}

/// Two runs in which a guest stores 7 and 9: they are alike, and their views are equal.
pub fn secret_stays_in()
    ensures { SecretStaysIn }
{}

/// Two runs in which the hypervisor itself stores 7 and 9: their views differ.
pub fn view_shows_stores()
    ensures { ViewShowsStores }
{}

/// Two runs in which a guest in normal memory stores 7 and 9, or leaves with 5 and 6 in a register: the views differ.
pub fn normal_guests_hide_nothing()
    ensures { NormalGuestsHideNothing }
{}

/// Two runs in which a guest in normal memory has 7 and 9 in a register, and neither stores it nor leaves with it: they are alike,
/// and their views are equal.
pub fn what_is_not_let_out_stays_in()
    ensures { WhatIsNotLetOutStaysIn }
{}

/// Where the configuration has a vault, legal histories that are alike but for sealed bytes are alike.
pub fn open_is_alike()
    ensures { OpenIsAlike }
{}

/// Histories in which no page-out begins are alike where they are alike but for sealed bytes.
pub fn unsealed_is_alike()
    ensures { UnsealedIsAlike }
{}

/// Two runs in which a guest's page is paged out by the stream, with 7 and with 9 in it: what is sealed differs, and so do
/// the views.
pub fn stream_tells()
    ensures { StreamTells }
{}

/// Two runs in which a guest's page is paged out into the vault, with 7 and with 9 in it: what is sealed is the same, and so
/// are the views.
pub fn vault_is_shut()
    ensures { VaultIsShut }
{}

/// A page is paged out in three steps, of which `go*` makes two.
pub fn goes_out()
    ensures { GoesOut }
{}

/// After a legal history `go*` ends within its most entries.
pub fn each_go_all_ends()
    ensures { EachGoAllEnds }
{}

/// What a script gives each of two CPUs next, after each part of a schedule in which the steps of a `go*` and another CPU's
/// step alternate.
pub fn nexts_of_two_cpus()
    ensures { NextsOfTwoCpus }
{}
