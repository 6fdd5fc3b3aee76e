// What a step, a kick and a descent work on.

#![tactic(auto)]

pub mod work;
