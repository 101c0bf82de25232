//! The tables of a board as plain lists: definitions that the verdict on a board and the board itself share.
#![tactic(auto)]
