//! Lists of bits: the words in which the ciphers and the check sequences of this repository are defined.
//!
//! FIPS 46-3 writes a block as a string of bits, and each step of DES as a choice of places of such a
//! string. Here a bit is the number 0 or 1, and a string is a list with the most significant bit first;
//! the check sequence of ISO/IEC 13239 takes the lowest bit of an octet first.
//! `specs/` has the definitions and `proofs/` the lemmas that tie them to the arithmetic of words.
//! The crate has no code.
#![tactic(auto)]
