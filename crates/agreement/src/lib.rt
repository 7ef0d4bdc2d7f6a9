// Theorems of the L1 cache, as l1/specs states it: that it agrees with an L1 without a cache, and that a refused call changes
// nothing. No code, and nothing that the cache's own proofs use.
#![tactic(auto)]
