// The L1 cache's run: what changed since the last one is sent in the input, and what the output holds is kept.
mod cache_run;
mod input;
mod lacking;
mod output;

pub use cache_run::run;
