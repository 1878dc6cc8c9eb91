//! What a crash leaves of a device's bytes, as the contract of a function that does nothing. A caller who needs it calls it.
ghost use Rattle.logging.specs.Laws.{ADeviceLeavesABatch, ADeviceLeavesAFrame};

/// A device that was handed frames, all of which it has said to be safe, and any part of what was logged next, leaves those frames
/// after a crash, and maybe some of the next.
pub fn a_device_leaves_what_was_logged()
    ensures frame { ADeviceLeavesAFrame }
    ensures batch { ADeviceLeavesABatch }
{}
