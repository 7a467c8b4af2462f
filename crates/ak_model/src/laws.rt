// Laws over the definitions, a module for each room of them.

pub mod clusters;
pub mod control;
pub mod flat;
pub mod kernels;
pub mod misses;
pub mod paging;
pub mod sound;
pub mod stops;
pub mod tapes;
