//! The laws of the texts: each text is of one value, and each value has one text; whether bytes are a text is decided; and `trial`
//! has one answer.
#![tactic(auto)]

pub mod laws;
