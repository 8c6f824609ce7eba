// How the exported calls answer: a code, 0 where there is an answer, else the number of the refusal. What is answered is written to the caller's variables, and only where the code is 0.
#![tactic(auto)]

ghost use Rattle.std.specs.Prelude.{◌≡◌};
ghost use Rattle.block.specs.Answer.{answer_of};
ghost use Rattle.refusals.specs.Numbers.{code_of};
ghost use Rattle.c_answers.specs.Told.{answer_code, cost_after, count_after, after, first_after, second_after, symbol_after, extra_after, bits_after, length_after, restoring_after};

use block::Answer;
use packing::Split;
use prices::Pair;
use refusals::Refusal;
use weights::Window;

// The code of a search's answer. Writes its cost, if it has one, and its count.
#[tactic(auto, unfolding(crate::specs::Told::answer_code, crate::specs::Told::cost_after, crate::specs::Told::count_after))]
pub fn tell_answer(answer: Answer, cost: &mut f32, count: &mut u32) -> u32
    ensures value { result ≡ answer_code (answer_of answer) }
    ensures cost_after { cost.new ≡ cost_after (answer_of answer) cost.old }
    ensures count_after { count.new ≡ count_after (answer_of answer) count.old }
{
    match answer {
        Ok(picked) => {
            if let Some(found) = picked.cost {
                *cost = found;
            }
            *count = picked.count;
            0
        }
        Err(refusal) => refusal.number(),
    }
}

// The code of an answer of one value. Writes the value.
#[tactic(auto, unfolding(crate::specs::Told::after))]
pub fn tell<T: Copy + Drop>(answer: Result<T, Refusal>, out: &mut T) -> u32
    ensures value { result ≡ code_of answer }
    ensures out_after { out.new ≡ after answer out.old }
{
    match answer {
        Ok(value) => {
            *out = value;
            0
        }
        Err(refusal) => refusal.number(),
    }
}

// The code of an answer of two prices. Writes both.
#[tactic(auto, unfolding(crate::specs::Told::first_after, crate::specs::Told::second_after))]
pub fn tell_pair(answer: Result<Pair, Refusal>, first: &mut f32, second: &mut f32) -> u32
    ensures value { result ≡ code_of answer }
    ensures first_after { first.new ≡ first_after answer first.old }
    ensures second_after { second.new ≡ second_after answer second.old }
{
    match answer {
        Ok(pair) => {
            *first = pair.first;
            *second = pair.second;
            0
        }
        Err(refusal) => refusal.number(),
    }
}

// The code of a split value. Writes its symbol, how many extra bits it has, and the bits.
#[tactic(auto, unfolding(crate::specs::Told::symbol_after, crate::specs::Told::extra_after, crate::specs::Told::bits_after))]
pub fn tell_token(
    answer: Result<Split, Refusal>,
    symbol: &mut u32,
    extra_bits: &mut u32,
    bits: &mut u32,
) -> u32
    ensures value { result ≡ code_of answer }
    ensures symbol_after { symbol.new ≡ symbol_after answer symbol.old }
    ensures extra_bits_after { extra_bits.new ≡ extra_after answer extra_bits.old }
    ensures bits_after { bits.new ≡ bits_after answer bits.old }
{
    match answer {
        Ok(split) => {
            *symbol = split.symbol;
            *extra_bits = split.extra_bits;
            *bits = split.bits;
            0
        }
        Err(refusal) => refusal.number(),
    }
}

// The code of a window's answer. Writes its length, and how many of its positions may be restored.
#[tactic(auto, unfolding(crate::specs::Told::length_after, crate::specs::Told::restoring_after))]
pub fn tell_lengths(
    answer: Result<Window, Refusal>,
    length: &mut usize,
    restoring: &mut usize,
) -> u32
    ensures value { result ≡ code_of answer }
    ensures length_after { length.new ≡ length_after answer length.old }
    ensures restoring_after { restoring.new ≡ restoring_after answer restoring.old }
{
    match answer {
        Ok(window) => {
            *length = window.length;
            *restoring = window.restoring;
            0
        }
        Err(refusal) => refusal.number(),
    }
}
