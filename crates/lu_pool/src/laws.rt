//! Laws of pools: each is the contract of a function that does nothing. Proofs of
//! other crates use them; no program calls them, and the root doesn't export them.
ghost use Rattle.lu_pool.specs.HolderLaws.{PoolsAreSound, StaysSoundFree, StaysSoundGranted, StaysSoundBack, NobodyHolds, AnswersWhatIsFree, AnswersNames, AnswersTheName, GrantIsHeld, OthersStay, OthersKeep, BackIsFree, GrantsOneEntry, FreesOneEntry, GrantMakesPool, FreeMakesPool};

/// Law: a pool is a map from LUs to the connections that hold them. The LU with which it answers a request is free, is
/// the one that was named, if one was, and is held once it is granted. Granting and giving back each change at most one
/// entry, and determine the new pool.
pub fn the_pool_is_a_map()
    ensures sound { PoolsAreSound }
    ensures sound_free { StaysSoundFree }
    ensures sound_granted { StaysSoundGranted }
    ensures sound_back { StaysSoundBack }
    ensures nobody { NobodyHolds }
    ensures free { AnswersWhatIsFree }
    ensures names { AnswersNames }
    ensures asked { AnswersTheName }
    ensures held { GrantIsHeld }
    ensures others_stay { OthersStay }
    ensures others_keep { OthersKeep }
    ensures back { BackIsFree }
    ensures grants { GrantsOneEntry }
    ensures frees { FreesOneEntry }
    ensures grant_makes { GrantMakesPool }
    ensures free_makes { FreeMakesPool }
{}
