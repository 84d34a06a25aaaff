//! Tests of the libraries of the store, each module named by the library that it tests.
#![tactic(auto)]

#[cfg(test)]
mod of_command_words;
#[cfg(test)]
mod of_interval_set;
#[cfg(test)]
mod of_itpg_base;
#[cfg(test)]
mod of_json_port;
#[cfg(test)]
mod of_path_ast;
#[cfg(test)]
mod of_script_lex;
#[cfg(test)]
mod of_trial_script;
