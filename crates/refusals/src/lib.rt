// Why a call refuses. Each refusal has the number that a caller in C gets.
#![tactic(auto)]

ghost use Rattle.std.specs.Prelude.{◌≡◌};
ghost use Rattle.refusals.specs.Numbers.{number_of, code_of};

use std::error::Error;
use std::fmt;

// refusals: variants, written by tools/refusals.py from docs/refusals.txt
#[derive(Clone, Copy, Debug, PartialEq, Eq, Hash)]
pub enum Refusal {
    /// The map is not 14,850 bytes, or the clusters are not 1 to 256.
    MapLength,
    /// Configurations are not 3 bytes a cluster, symbol prices not 128, ready prices not 256; of a
    /// prefix code: depths not 128, flags not 1; of an ANS code: frequencies not 128; of a tally:
    /// counts not 128.
    BookLength,
    /// An entry of the map is not below the number of clusters.
    MapEntry,
    /// A configuration (s, m, l) has s > 6 or m + l > s.
    Configuration,
    /// A symbol price is NaN, below 0, or finite and above 1,024.
    SymbolPrice,
    /// A ready price differs in its bits from symbol price plus extra bits.
    ReadyPrice,
    /// A side of the block is not 1, 2, 4, 8, 16 or 32.
    BlockSide,
    /// Levels, scan, source or inverse weights do not hold 64 numbers for each covered block; in a
    /// group's list: too few are left for the block.
    BlockLength,
    /// The strategy code is above 26, or the channel above 2.
    Strategy,
    /// Lambda lies outside 2^-20 to 2^20, penalty or channel weight outside 2^-10 to 2^10, distance
    /// outside 0 to 25, the bias `one` outside 0 to 2, one of these is NaN, or the bias numerator
    /// is not the f32 0.145.
    Settings,
    /// The scan does not hold each index of the block once.
    Scan,
    /// A level at scan position c or later, c being the covered blocks, lies outside -32,767 to
    /// 32,767.
    Level,
    /// An ideal (source * inverse weight * scale) in the window is NaN or outside -32,767 to
    /// 32,767.
    Ideal,
    /// The room is too small for the search.
    Room,
    /// Every choice in the trellis's band needs a token of infinite price, or one for which there
    /// is no word for want of symbols.
    BandInfinite,
    /// Every path that the beam kept ended at an infinite cost.
    PathsInfinite,
    /// An argument lies outside the call's domain, no search has the number, or a group's list is
    /// not eight words and seven floats a block.
    Domain,
    /// The product of the sides is not what ISO/IEC 18181-1 gives for the strategy code (1 for 0 to
    /// 3 and 12 to 17; 2 for 6, 7; 4 for 4, 8, 9; 8 for 10, 11; 16 for 5; 32 for 19, 20; 64 for 18;
    /// 128 for 22, 23; 256 for 21; 512 for 25, 26; 1,024 for 24).
    Sides,
    /// A frequency of an ANS code is above 4,096.
    Frequency,
    /// A token's symbol is above 127, or in reading no value up to 131,071 splits into the symbol
    /// and the extra bits.
    TokenSplit,
    /// The count of nonzero levels that is read is above 63 for each covered block.
    TokenCount,
    /// The lists of symbols and extra bits differ in length, end early, or have tokens left over.
    TokenLists,
    /// An output is shorter than the block's tokens.
    OutputShort,
    /// A level at scan position c or later lies outside -32,768 to 32,768.
    TokenLevel,
    /// More nonzero levels are owed than positions are left.
    LevelsOwed,
    /// The half-width of the band is not 1 to 12.
    HalfWidth,
    /// A count of a tally would pass 2^32 - 1, or its total of extra bits 2^64 - 1.
    TallyFull,
    /// A count of a tally, or its total of extra bits, would fall below 0.
    TallyEmpty,
    /// A listed block leaves the group of 32 by 32 cells.
    OutsideGroup,
    /// Two listed blocks of a channel share a cell.
    Overlap,
    /// A listed block comes before the cell left of its top left cell, or the one above, in its
    /// channel.
    NeighbourMissing,
    /// More than two covered blocks are asked of the small product.
    NotSmall,
    /// The block number of a store is not below 1,024.
    BlockNumber,
    /// The live tokens of a store would exceed its room; a run that is replaced is not counted.
    StoreFull,
    /// A store holds no run under the block number.
    NotHeld,
    /// The reader's buffer is shorter than the run.
    BufferShort,
    /// The record of a store is not 3,073 numbers, or says more than 1,024 runs, a run that starts
    /// before the one before it ends or ends past the room, or a number that is not below 1,024 or
    /// stands there twice.
    StoreRecord,
}
// refusals: end

// refusals: arms, written by tools/refusals.py from docs/refusals.txt
impl Refusal {
    pub fn number(self) -> u32
        ensures { result ≡ number_of self }
    {
        match self {
            Refusal::MapLength => 1,
            Refusal::BookLength => 2,
            Refusal::MapEntry => 3,
            Refusal::Configuration => 4,
            Refusal::SymbolPrice => 5,
            Refusal::ReadyPrice => 6,
            Refusal::BlockSide => 7,
            Refusal::BlockLength => 8,
            Refusal::Strategy => 9,
            Refusal::Settings => 10,
            Refusal::Scan => 11,
            Refusal::Level => 12,
            Refusal::Ideal => 13,
            Refusal::Room => 14,
            Refusal::BandInfinite => 15,
            Refusal::PathsInfinite => 16,
            Refusal::Domain => 17,
            Refusal::Sides => 18,
            Refusal::Frequency => 19,
            Refusal::TokenSplit => 20,
            Refusal::TokenCount => 21,
            Refusal::TokenLists => 22,
            Refusal::OutputShort => 23,
            Refusal::TokenLevel => 24,
            Refusal::LevelsOwed => 25,
            Refusal::HalfWidth => 26,
            Refusal::TallyFull => 27,
            Refusal::TallyEmpty => 28,
            Refusal::OutsideGroup => 29,
            Refusal::Overlap => 30,
            Refusal::NeighbourMissing => 31,
            Refusal::NotSmall => 32,
            Refusal::BlockNumber => 33,
            Refusal::StoreFull => 34,
            Refusal::NotHeld => 35,
            Refusal::BufferShort => 36,
            Refusal::StoreRecord => 37,
        }
    }
}
// refusals: end

// What a call answers, as a number: 0 where it refuses nothing.
pub fn code<T: Drop>(answer: Result<T, Refusal>) -> u32
    ensures { result ≡ code_of answer }
{
    match answer {
        Ok(_) => 0,
        Err(refusal) => refusal.number(),
    }
}

// What is wrong, and what to mend.
// refusals: mends, written by tools/refusals.py from docs/refusals.txt
impl fmt::Display for Refusal {
    fn fmt<W: fmt::Write>(&self, f: &mut fmt::Formatter<W>) -> fmt::Result {
        f.write_str(match self {
            Refusal::MapLength => {
                "the map is not 14,850 bytes, or the clusters are not 1 to 256: lend a byte for each context; name 1 to 256 clusters"
            }
            Refusal::BookLength => {
                "configurations are not 3 bytes a cluster, symbol prices not 128, ready prices not 256; of a prefix code: depths not 128, flags not 1; of an ANS code: frequencies not 128; of a tally: counts not 128: lend the exact lengths; surplus is refused too"
            }
            Refusal::MapEntry => {
                "an entry of the map is not below the number of clusters: mend the map, or name more clusters"
            }
            Refusal::Configuration => {
                "a configuration (s, m, l) has s > 6 or m + l > s: use a smaller one; 4,2,0 and 5,2,2 and 6,3,0 pass"
            }
            Refusal::SymbolPrice => {
                "a symbol price is NaN, below 0, or finite and above 1,024: use +infinity for a symbol that can't be written; -0.0 passes"
            }
            Refusal::ReadyPrice => {
                "a ready price differs in its bits from symbol price plus extra bits: fill the ready prices again after each change of a configuration or a symbol price; see to the floating-point mode"
            }
            Refusal::BlockSide => {
                "a side of the block is not 1, 2, 4, 8, 16 or 32: pass the sides in units of 8 samples"
            }
            Refusal::BlockLength => {
                "levels, scan, source or inverse weights do not hold 64 numbers for each covered block; in a group's list: too few are left for the block: lend the exact lengths"
            }
            Refusal::Strategy => {
                "the strategy code is above 26, or the channel above 2: pass the code of ISO/IEC 18181-1; channels are X = 0, Y = 1, B = 2"
            }
            Refusal::Settings => {
                "lambda lies outside 2^-20 to 2^20, penalty or channel weight outside 2^-10 to 2^10, distance outside 0 to 25, the bias `one` outside 0 to 2, one of these is NaN, or the bias numerator is not the f32 0.145: hold the settings within these bounds; explicit biases with another numerator are not covered"
            }
            Refusal::Scan => {
                "the scan does not hold each index of the block once: pass the scan order of this strategy"
            }
            Refusal::Level => {
                "a level at scan position c or later, c being the covered blocks, lies outside -32,767 to 32,767: quantise more coarsely"
            }
            Refusal::Ideal => {
                "an ideal (source * inverse weight * scale) in the window is NaN or outside -32,767 to 32,767: look for a failed transform or a wrong scale; keep the block as it is, or mend its coefficients"
            }
            Refusal::Room => {
                "the room is too small for the search: `Room::new` serves every block and half-width"
            }
            Refusal::BandInfinite => {
                "every choice in the trellis's band needs a token of infinite price, or one for which there is no word for want of symbols: give finite prices to the symbols that the block needs, use a configuration with symbols for its values and its count, or keep the block as it is"
            }
            Refusal::PathsInfinite => {
                "every path that the beam kept ended at an infinite cost: give finite prices to the symbols that the block needs, or try the trellis, which may still find a choice"
            }
            Refusal::Domain => {
                "an argument lies outside the call's domain, no search has the number, or a group's list is not eight words and seven floats a block: see what is said over the call; of a price call also a length, or an entry that it reads"
            }
            Refusal::Sides => {
                "the product of the sides is not what ISO/IEC 18181-1 gives for the strategy code (1 for 0 to 3 and 12 to 17; 2 for 6, 7; 4 for 4, 8, 9; 8 for 10, 11; 16 for 5; 32 for 19, 20; 64 for 18; 128 for 22, 23; 256 for 21; 512 for 25, 26; 1,024 for 24): pass the strategy and the sides of one block; which side is the longer does not matter"
            }
            Refusal::Frequency => {
                "a frequency of an ANS code is above 4,096: scale the frequencies so that 4,096 is the whole"
            }
            Refusal::TokenSplit => {
                "a token's symbol is above 127, or in reading no value up to 131,071 splits into the symbol and the extra bits: use a configuration with symbols for the block's values"
            }
            Refusal::TokenCount => {
                "the count of nonzero levels that is read is above 63 for each covered block: look for damaged tokens, or for those of another block"
            }
            Refusal::TokenLists => {
                "the lists of symbols and extra bits differ in length, end early, or have tokens left over: lend the tokens of exactly one block"
            }
            Refusal::OutputShort => {
                "an output is shorter than the block's tokens: lend 63 for each covered block and one"
            }
            Refusal::TokenLevel => {
                "a level at scan position c or later lies outside -32,768 to 32,768: quantise more coarsely; in reading, look for damaged tokens"
            }
            Refusal::LevelsOwed => {
                "more nonzero levels are owed than positions are left: look for damaged tokens, or for those of another block"
            }
            Refusal::HalfWidth => {
                "the half-width of the band is not 1 to 12: use 6 where nothing else is known"
            }
            Refusal::TallyFull => {
                "a count of a tally would pass 2^32 - 1, or its total of extra bits 2^64 - 1: begin a new tally"
            }
            Refusal::TallyEmpty => {
                "a count of a tally, or its total of extra bits, would fall below 0: take out only tokens that were added, under the same map and configurations"
            }
            Refusal::OutsideGroup => {
                "a listed block leaves the group of 32 by 32 cells: list blocks that lie in the group"
            }
            Refusal::Overlap => {
                "two listed blocks of a channel share a cell: list each cell of a channel once"
            }
            Refusal::NeighbourMissing => {
                "a listed block comes before the cell left of its top left cell, or the one above, in its channel: list the blocks of a channel from the top left on"
            }
            Refusal::NotSmall => {
                "more than two covered blocks are asked of the small product: call `rdoq_block`"
            }
            Refusal::BlockNumber => {
                "the block number of a store is not below 1,024: number the blocks of a store from 0"
            }
            Refusal::StoreFull => {
                "the live tokens of a store would exceed its room; a run that is replaced is not counted: drop runs, or start a store with more room"
            }
            Refusal::NotHeld => "a store holds no run under the block number: put one first",
            Refusal::BufferShort => {
                "the reader's buffer is shorter than the run: lend as many tokens as `TokenStore::run_len` says"
            }
            Refusal::StoreRecord => {
                "the record of a store is not 3,073 numbers, or says more than 1,024 runs, a run that starts before the one before it ends or ends past the room, or a number that is not below 1,024 or stands there twice: hand room and record on as the last call left them; all 0 is an empty store"
            }
        })
    }
}
// refusals: end

impl Error for Refusal {}

#[cfg(test)]
mod tests {
    use super::*;
    use std::test::Fail;

    // What is wrong, and what to mend, as docs/refusals.txt has them.
    #[test]
    fn says_what_to_mend(rt: HostRuntime) -> Result<(), Fail> {
        let side = format!(in rt.alloc(); "{}", Refusal::BlockSide)?;
        assert_eq!(rt;
            side.as_str(),
            "a side of the block is not 1, 2, 4, 8, 16 or 32: pass the sides in units of 8 samples"
        );
        let map = format!(in rt.alloc(); "{}", Refusal::MapEntry)?;
        assert_eq!(rt;
            map.as_str(),
            "an entry of the map is not below the number of clusters: mend the map, or name more clusters"
        );
        Ok(())
    }
}
