//! Tests of the libraries of queries and of runs, each module named by the library that it tests.
#![tactic(auto)]

#[cfg(test)]
mod of_arrivals;
#[cfg(test)]
mod of_band_normal;
#[cfg(test)]
mod of_itpg_pins;
#[cfg(test)]
mod of_itpg_run;
#[cfg(test)]
mod of_itpg_session;
#[cfg(test)]
mod of_label_scope;
#[cfg(test)]
mod of_plan_cache;
#[cfg(test)]
mod of_relation_rows;
#[cfg(test)]
mod of_repeat_engine;
#[cfg(test)]
mod of_source_rows;
#[cfg(test)]
mod of_wide_witness;
#[cfg(test)]
mod of_zone_compose;
#[cfg(test)]
mod of_zone_core;
