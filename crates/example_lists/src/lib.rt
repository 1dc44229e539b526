// Record lists written as document 01 lays them out, for statements about single calls. This crate has definitions and no functions.
#![tactic(auto)]
