//! Laws of the commands on the lock and on what is known of paths.
#![tactic(auto)]

ghost use Rattle.smk_laws_keys.specs.Stamps.{CleaningMeetsStamps, RefusedLeavesFront};
ghost use Rattle.smk_laws_keys.specs.Keys.{UnlockingIsSafe, CleaningIsSafe, CleaningLeavesLittle};

/// What `--cleanup-metadata` answers, over the folder as it is called: it is done only where the lock lets it in and no time of its paths was
/// seen before, each in its turn; and it refuses a path by the first time that was seen. Then the paths before that one are forgotten.
pub fn stamps_are_met()
    ensures met { CleaningMeetsStamps }
    ensures front { RefusedLeavesFront }
{}

/// What `--unlock` and `--cleanup-metadata` do keeps the folder sound: after every event whatever a crash leaves is sound and has the
/// sources of the entry, but at and under paths that are forgotten; and so is the folder at the end, where no call failed.
pub fn keys_are_safe()
    ensures unlocking { UnlockingIsSafe }
    ensures cleaning { CleaningIsSafe }
{}

/// `--cleanup-metadata` changes nothing but what is known of its paths, and the lock with its folders; and leaves the lock as it was, unless
/// a call failed. Where it is done nothing is known of its paths.
pub fn cleaning_leaves_little()
    ensures { CleaningLeavesLittle }
{}
