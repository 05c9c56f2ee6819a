//! One instruction of one hart, over any memory bus; and which words of memory are decoded beforehand, on which nothing but speed depends.
#![tactic(auto)]

mod access_log;
mod amo;
mod answer;
mod buffered;
mod bus;
mod decoded_code;
mod decoding;
mod direct;
mod effects;
mod hart;
mod laws;
mod listing;
mod numbers;
mod performing;
mod rounds;
mod simple;
mod simple_stretches;
mod stepping;

pub use access_log::{AccessCount, AccessLog};
pub use amo::amo_value;
pub use answer::Answer;
pub use buffered::Buffered;
pub use bus::Bus;
pub use decoded_code::DecodedCode;
pub use decoding::{MOST_WORDS, decode_around, decode_range};
pub use effects::{cut_to, sign_extended, stop_code};
pub use hart::{Hart, Stop};
pub use laws::{
    accesses_have_their_forms, done_counts_instructions, instructions_are_sound,
    stops_have_their_codes, waits_before_serial_words,
};
pub use listing::{count_of, index_of, step_listed};
pub use round_schedule::{Access, Span, Stepped};
pub use rounds::hart_round;
pub use simple_stretches::do_simple_at;
pub use stepping::{step, step_decoded};
