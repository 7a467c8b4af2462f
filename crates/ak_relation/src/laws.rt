// Laws on the relation, a module for each subject.

pub mod built;
pub mod causes;
pub mod entering;
pub mod holding;
pub mod journals;
pub mod leaves;
pub mod notes;
pub mod program;
pub mod reached;
pub mod runs;
pub mod runtime;
pub mod tracking;
