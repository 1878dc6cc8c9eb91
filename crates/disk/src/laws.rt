//! The laws of disks, each the contract of a function that does nothing. A caller that needs a law calls it.
ghost use Rattle.disk.specs.Laws.{ACrashBeforeAStep, ACrashInAWrite, ACrashOfACrash, AKillIsACrash, ASyncedNameStays, WhatWasSyncedStays};

/// A second crash leaves what the first one left.
pub fn a_crash_of_a_crash()
    ensures { ACrashOfACrash }
{}

/// Durable bytes stay.
pub fn what_was_synced_stays()
    ensures { WhatWasSyncedStays }
{}

/// So do names, once their folder was synced.
pub fn a_synced_name_stays()
    ensures { ASyncedNameStays }
{}

/// What a crash may leave before a call, it may leave once the call has begun.
pub fn a_crash_before_a_step()
    ensures { ACrashBeforeAStep }
{}

/// What a crash may leave of a part of a write, it may leave of the write.
pub fn a_crash_in_a_write()
    ensures { ACrashInAWrite }
{}

/// What a killed process leaves reads as what a crash may leave.
pub fn a_kill_is_a_crash()
    ensures { AKillIsACrash }
{}
