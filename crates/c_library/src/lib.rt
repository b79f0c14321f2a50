//! The library for C, its proved part: calls on one name, calls on two names, and sessions that get their lines one by
//! one. C programs call the functions of `library/cpe.c`. These test for mistakes of a caller, and then call the
//! functions here whose names begin with `cpe_c_`.
//!
//! A call on one name writes it in another form. A call on two names relates them. These calls keep nothing. Texts are
//! bytes, and a result is written into a buffer of the caller. The result of a call is one of a few cases
//! (`CallResult`); C gets a code and a number for it (`Answer`).
//!
//! A session (`Talk`) begins with the words of a command that answers lines (`begin`). It answers each line as a run of
//! this command does (`say`), and then writes the output of the end (`end`). It keeps the state of the command
//! (`Speaking`) and the number of lines so far, but no input. The caller passes a line, and a buffer for the answer. If
//! an answer doesn't fit into the buffer, the session can write it again (`repeat`).
//!
//! All answers, one after the other, are what a run writes for the lines ([`law::joined_answers`]). Between its calls C
//! keeps a session as the pointer of its box (`KeptTalk`).
#![tactic(auto)]

mod beginning;
mod call_result;
mod forms;
mod kept;
pub mod law;
mod pairs;
mod parts;
mod sessions;
mod speaking;
mod talk;
