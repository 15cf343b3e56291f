// No code: truth values, lists and bitmaps, and laws of them that more than one crate uses.
#![tactic(auto)]
