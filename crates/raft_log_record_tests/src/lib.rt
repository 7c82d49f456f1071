//! Tests of records and files that can't be cases: calls whose allocations fail, and laws, which print nothing. All
//! other tests are the cases of `raft_log_record_cases`.
#![tactic(auto)]

#[cfg(test)]
mod directory_laws;
#[cfg(test)]
mod machine_laws;
#[cfg(test)]
mod model_laws;
#[cfg(test)]
mod short_memory_of_files;
