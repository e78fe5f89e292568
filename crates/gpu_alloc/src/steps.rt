//! Counters of steps. They take no bytes and do nothing at run time.

pub use gpu_alloc_base::steps::Steps;
