//! What a stream of units asks for, picture by picture: definitions alone, for whoever reads what
//! the decoder promises.
#![tactic(auto)]
