// The L1 cache: a vCPU's values kept by the L1, with marks of which are valid and which changed since the last run.
// `named` looks up the element that a write or a read names, `value` holds what both do with it, `caches` tells whether a cache is
// well formed, `flush` is the cache's run.
#![tactic(auto)]

mod cache_read;
mod cache_write;
mod caches;
mod flush;
mod marks;
mod named;
mod value;

pub use cache_read::read;
pub use cache_write::write;
pub use flush::run;

// A mark, and the marks behind it in its word.
#[derive(Clone, Copy)]
pub struct Mark {
    pub at: usize,
    pub left: u64,
}
